//! The functions that use neither the console nor the disk.

ghost use Rattle.std.specs.Prelude.{◌≡◌, ◌<◌, IfOk};
ghost use Rattle.cpm_bdos.specs.Settings.{set_by, user_set};

use crate::function::SettingCall;
use cpm_disk::Stop;
use cpm_image::USERS;

/// The DMA address after a reset.
pub(crate) const FIRST_DMA: u16 = 0x0080;

/// The answer of function 12: CP/M 2.2.
const VERSION: u16 = 0x0022;

/// The login vector, with drive A only.
const DRIVE_A: u16 = 0x0001;

/// With this argument, function 32 answers the user instead of setting it.
const ASK: u8 = 0xFF;

/// What such a function answers, and the DMA address and the user after it.
#[derive(Clone, Copy)]
pub struct Settings {
    pub value: u16,
    pub dma: u16,
    pub user: u8,
}

/// What a function answers, and the settings after it.
///
/// # Errors
///
/// [`Stop::UnknownDrive`] if the program selects a drive other than A.
pub(crate) fn set_by(call: SettingCall, argument: u16, dma: u16, user: u8) -> Result<Settings, Stop>
    requires { user < USERS }
    ensures settings { result ≡ set_by call argument dma user }
    ensures user { IfOk result (λ s. s.user < USERS) }
{
    let byte = (argument % 256) as u8;
    let kept = Settings {
        value: 0,
        dma,
        user,
    };
    match call {
        SettingCall::Version => Ok(Settings {
            value: VERSION,
            ..kept
        }),
        SettingCall::ResetDisks => Ok(Settings {
            dma: FIRST_DMA,
            ..kept
        }),
        SettingCall::SelectDisk => {
            if byte == 0 {
                Ok(kept)
            } else {
                Err(Stop::UnknownDrive)
            }
        }
        SettingCall::LoginVector => Ok(Settings {
            value: DRIVE_A,
            ..kept
        }),
        SettingCall::CurrentDisk => Ok(kept),
        SettingCall::SetDma => Ok(Settings {
            dma: argument,
            ..kept
        }),
        SettingCall::UserCode => Ok(user_set(byte, dma, user)),
    }
}

/// Function 32: FFH answers the user, and any other byte modulo 32 becomes the user.
fn user_set(byte: u8, dma: u16, user: u8) -> Settings
    requires { user < USERS }
    ensures settings { result ≡ user_set byte dma user }
    ensures user { result.user < USERS }
{
    if byte == ASK {
        Settings {
            value: u16::from(user),
            dma,
            user,
        }
    } else {
        Settings {
            value: 0,
            dma,
            user: byte % USERS,
        }
    }
}
