//! The functions of the BDOS in families, and the entries of the BIOS.

ghost use Rattle.std.specs.Prelude.{◌≡◌};

/// A function of the BDOS.
#[derive(Clone, Copy, Debug, PartialEq, Eq)]
pub enum Function {
    SystemReset,
    Console(ConsoleCall),
    Setting(SettingCall),
    Search(SearchCall),
    File(FileCall),
    Record(RecordCall),
}

/// A function that uses the console.
#[derive(Clone, Copy, Debug, PartialEq, Eq)]
pub enum ConsoleCall {
    Input,
    Output,
    Direct,
    PrintString,
    ReadLine,
    Status,
}

/// A function that uses neither the console nor the disk.
#[derive(Clone, Copy, Debug, PartialEq, Eq)]
pub enum SettingCall {
    Version,
    ResetDisks,
    SelectDisk,
    LoginVector,
    CurrentDisk,
    SetDma,
    UserCode,
}

/// A function that searches the directory.
#[derive(Clone, Copy, Debug, PartialEq, Eq)]
pub enum SearchCall {
    First,
    Next,
}

/// A function on a whole file.
#[derive(Clone, Copy, Debug, PartialEq, Eq)]
pub enum FileCall {
    Open,
    Close,
    Erase,
    Make,
    Rename,
}

/// A function on the records of a file.
#[derive(Clone, Copy, Debug, PartialEq, Eq)]
pub enum RecordCall {
    ReadNext,
    WriteNext,
    ReadRandom,
    WriteRandom,
    FileSize,
    SetRandom,
}

/// A supported entry of the BIOS.
#[derive(Clone, Copy, Debug, PartialEq, Eq)]
pub enum BiosEntry {
    ConsoleStatus,
    ConsoleInput,
    ConsoleOutput,
}

impl Function {
    ghost use Rattle.cpm_bdos.specs.Functions.{function_of};

    /// The function with this number, if there is one.
    pub fn of(number: u8) -> Option<Function>
        ensures { result ≡ function_of number }
    {
        match number {
            0 => Some(Function::SystemReset),
            1 => Some(Function::Console(ConsoleCall::Input)),
            2 => Some(Function::Console(ConsoleCall::Output)),
            6 => Some(Function::Console(ConsoleCall::Direct)),
            9 => Some(Function::Console(ConsoleCall::PrintString)),
            10 => Some(Function::Console(ConsoleCall::ReadLine)),
            11 => Some(Function::Console(ConsoleCall::Status)),
            12 => Some(Function::Setting(SettingCall::Version)),
            13 => Some(Function::Setting(SettingCall::ResetDisks)),
            14 => Some(Function::Setting(SettingCall::SelectDisk)),
            15 => Some(Function::File(FileCall::Open)),
            16 => Some(Function::File(FileCall::Close)),
            17 => Some(Function::Search(SearchCall::First)),
            18 => Some(Function::Search(SearchCall::Next)),
            19 => Some(Function::File(FileCall::Erase)),
            20 => Some(Function::Record(RecordCall::ReadNext)),
            21 => Some(Function::Record(RecordCall::WriteNext)),
            22 => Some(Function::File(FileCall::Make)),
            23 => Some(Function::File(FileCall::Rename)),
            24 => Some(Function::Setting(SettingCall::LoginVector)),
            25 => Some(Function::Setting(SettingCall::CurrentDisk)),
            26 => Some(Function::Setting(SettingCall::SetDma)),
            32 => Some(Function::Setting(SettingCall::UserCode)),
            33 => Some(Function::Record(RecordCall::ReadRandom)),
            34 => Some(Function::Record(RecordCall::WriteRandom)),
            35 => Some(Function::Record(RecordCall::FileSize)),
            36 => Some(Function::Record(RecordCall::SetRandom)),
            _ => None,
        }
    }
}

impl BiosEntry {
    ghost use Rattle.cpm_bdos.specs.Functions.{bios_entry_of};

    /// The entry with this number, if it is supported.
    pub fn of(number: u8) -> Option<BiosEntry>
        ensures { result ≡ bios_entry_of number }
    {
        match number {
            2 => Some(BiosEntry::ConsoleStatus),
            3 => Some(BiosEntry::ConsoleInput),
            4 => Some(BiosEntry::ConsoleOutput),
            _ => None,
        }
    }
}
