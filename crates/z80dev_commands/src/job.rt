//! The jobs that words ask for, each with the values of its words.

/// The lines before the first line of each source.
#[derive(Debug, Drop)]
pub struct Shared<'a> {
    /// The definitions, as `NAME=VALUE`, in the order of the words.
    pub defines: Vec<&'a str>,
    /// The paths of the files that the sources share, in the order of the words.
    pub files: Vec<&'a str>,
}

/// `asm`: assembles a source to an object.
#[derive(Debug, Drop)]
pub struct Asm<'a> {
    /// The path of the files to write, without their endings. `None` for that of the source.
    pub out: Option<&'a str>,
    /// Whether a written `JR` may become a `JP`.
    pub grow: bool,
    /// Whether the command warns of code that relies on the length of a jump.
    pub warn: bool,
    pub shared: Shared<'a>,
    /// The path of the source.
    pub source: &'a str,
}

/// `link`: links objects to a program.
#[derive(Debug, Drop)]
pub struct Link<'a> {
    /// The path of the files to write, without their endings. `None` for that of the first object.
    pub out: Option<&'a str>,
    /// Whether a map of the program is written.
    pub map: bool,
    /// The form of the file of symbols, if one is to be written.
    pub symbols: Option<&'a str>,
    /// The paths of the object files, in the order of the words.
    pub objects: Vec<&'a str>,
}

/// `build`: assembles and links sources to a program.
#[derive(Debug, Drop)]
pub struct Build<'a> {
    /// The path of the files to write, without their endings. `None` for that of the first source.
    pub out: Option<&'a str>,
    /// Whether a written `JR` may become a `JP`.
    pub grow: bool,
    /// Whether a listing and the symbols are written.
    pub list: bool,
    /// Whether a map of the program is written.
    pub map: bool,
    /// The form of the file of symbols, if one is to be written for a debugger.
    pub symbols: Option<&'a str>,
    /// Whether the command reports how many jumps are short.
    pub verbose: bool,
    /// Whether the command warns of code that relies on the length of a jump.
    pub warn: bool,
    pub shared: Shared<'a>,
    /// The paths of the sources in the order of the words, at least one.
    pub sources: Vec<&'a str>,
}

/// `explain`: says what is wrong with sources.
#[derive(Debug, Drop)]
pub struct Explain<'a> {
    /// Whether a written `JR` may become a `JP`.
    pub grow: bool,
    /// Whether it says of each long jump why it is long.
    pub jumps: bool,
    /// Whether each message is an object of JSON.
    pub json: bool,
    /// When messages are in colour, if that is given.
    pub color: Option<&'a str>,
    pub shared: Shared<'a>,
    /// The paths of the sources in the order of the words, at least one.
    pub sources: Vec<&'a str>,
}

/// `check`: checks a certificate.
#[derive(Clone, Copy, Debug)]
pub struct Check<'a> {
    /// The path of the sizes file.
    pub sizes: &'a str,
    /// The path of the certificate.
    pub cert: &'a str,
}

/// `dis`: writes a source that builds to a program.
#[derive(Debug, Drop)]
pub struct Dis<'a> {
    /// The path of the file of its labels, if one is given.
    pub labels: Option<&'a str>,
    /// Addresses at which code begins, in the order of the words.
    pub entries: Vec<&'a str>,
    /// Addresses at which data begins, in the order of the words.
    pub data_starts: Vec<&'a str>,
    /// The path of the .COM file.
    pub program: &'a str,
}

/// `dir`: lists the files of a disk.
#[derive(Clone, Copy, Debug)]
pub struct Dir<'a> {
    /// The path of the image.
    pub image: &'a str,
    /// The user whose files are listed, 0 to 31. `None` for all users.
    pub user: Option<u8>,
    /// Whether each line also gives the room that the file takes.
    pub long: bool,
    /// The name of the files to list, which may have `?` and `*`. `None` for all files.
    pub name: Option<&'a str>,
}

/// The image that a command changes, and how.
#[derive(Clone, Copy, Debug)]
pub struct Target<'a> {
    /// The path of the image.
    pub image: &'a str,
    /// The user whose files the command changes: 0 to 31, and 0 if the words name no user.
    pub user: u8,
    /// Whether the command locks the image, so that no other command changes it at the same time.
    pub lock: bool,
}

/// How files are put on a disk.
#[derive(Clone, Copy, Debug)]
pub struct Manner {
    /// Whether a file of the same name is replaced.
    pub replace: bool,
    /// Whether the files are texts, which get the line ends of CP/M and 1AH at the end.
    pub text: bool,
}

/// `put`: puts a file on a disk.
#[derive(Clone, Copy, Debug)]
pub struct Put<'a> {
    pub target: Target<'a>,
    pub manner: Manner,
    /// The path of the file.
    pub file: &'a str,
    /// Its name on the disk.
    pub name: &'a str,
}

/// `put --to`: puts files on a disk, each with the last part of its path as its name.
#[derive(Debug, Drop)]
pub struct PutAll<'a> {
    pub target: Target<'a>,
    pub manner: Manner,
    /// The paths of the files in the order of the words, at least one.
    pub files: Vec<&'a str>,
}

/// `get`: gets files from a disk.
#[derive(Clone, Copy, Debug)]
pub struct Get<'a> {
    /// The path of the image.
    pub image: &'a str,
    /// The user whose file it is, 0 to 31.
    pub user: u8,
    /// Whether the file is a text.
    pub text: bool,
    /// Its name on the disk, which may have `?` and `*`.
    pub name: &'a str,
    /// The path of the file to write, or of the folder for all files that match.
    pub file: &'a str,
}

/// `get --all`: gets all files of a user from a disk.
#[derive(Clone, Copy, Debug)]
pub struct GetAll<'a> {
    /// The path of the image.
    pub image: &'a str,
    /// The user whose files they are, 0 to 31.
    pub user: u8,
    /// Whether the files are texts.
    pub text: bool,
    /// The path of the folder to write them into.
    pub folder: &'a str,
}

/// `erase`: erases files of a disk.
#[derive(Debug, Drop)]
pub struct Erase<'a> {
    pub target: Target<'a>,
    /// The names of the files in the order of the words, at least one.
    pub names: Vec<&'a str>,
}

/// `rename`: renames a file of a disk.
#[derive(Clone, Copy, Debug)]
pub struct Rename<'a> {
    pub target: Target<'a>,
    /// The name of the file.
    pub old: &'a str,
    /// Its new name.
    pub new: &'a str,
}

/// The attribute that `protect` sets and `unprotect` clears.
#[derive(Clone, Copy, Debug)]
pub enum Attribute {
    /// The file is read-only: `erase` refuses it.
    ReadOnly,
    /// The file is a system file: CP/M's own DIR does not list it.
    System,
}

/// `protect` and `unprotect`: set an attribute of files of a disk, or clear it.
#[derive(Debug, Drop)]
pub struct Protect<'a> {
    pub target: Target<'a>,
    pub attribute: Attribute,
    /// Whether the attribute is set, and not cleared.
    pub on: bool,
    /// The names of the files in the order of the words, at least one.
    pub names: Vec<&'a str>,
}

/// `blank`: makes the image of an empty disk.
#[derive(Clone, Copy, Debug)]
pub struct Blank<'a> {
    /// Whether it is a Megabyte disk.
    pub mega: bool,
    /// Whether an image that exists is kept.
    pub keep: bool,
    /// Whether the image is locked.
    pub lock: bool,
    /// The path of the image.
    pub image: &'a str,
}

/// A job on an image of a disk.
#[derive(Debug, Drop)]
pub enum DiskJob<'a> {
    Dir(Dir<'a>),
    Put(Put<'a>),
    PutAll(PutAll<'a>),
    Get(Get<'a>),
    GetAll(GetAll<'a>),
    Erase(Erase<'a>),
    Rename(Rename<'a>),
    Protect(Protect<'a>),
    /// `check-disk`: checks the directory of the image with this path.
    Check(&'a str),
    Blank(Blank<'a>),
}

/// What `run` tells about a run, besides what the program prints.
#[derive(Clone, Copy, Debug)]
pub struct Telling<'a> {
    /// The path of a file of labels, which are then printed beside addresses.
    pub labels: Option<&'a str>,
    /// Whether the registers are printed at the end.
    pub registers: bool,
    /// How many of the last steps are printed if the run is stopped, 0 to 1,000,000. `None` for none.
    pub last: Option<u32>,
    /// The path of the file to write with a line for each step.
    pub trace: Option<&'a str>,
    /// The path of the file to write with how often each instruction ran.
    pub profile: Option<&'a str>,
    /// The path of a listing, whose lines the profile then has.
    pub list: Option<&'a str>,
}

/// `run`: runs a program.
#[derive(Debug, Drop)]
pub struct Run<'a> {
    /// The path of the image of its disk, if one is given.
    pub disk: Option<&'a str>,
    /// Whether that image is locked.
    pub lock: bool,
    /// The most steps that the run may take. `None` for the caller's default.
    pub steps: Option<u64>,
    pub telling: Telling<'a>,
    /// The path of the .COM file.
    pub program: &'a str,
    /// The words of the program's command line.
    pub words: Vec<&'a str>,
}

/// `debug`: debugs a program.
#[derive(Debug, Drop)]
pub struct Debugging<'a> {
    /// The path of the image of its disk, if one is given. It is not written.
    pub disk: Option<&'a str>,
    /// The path of the file with what is typed before the start, if one is given.
    pub input: Option<&'a str>,
    /// The path of the file of an earlier session at a keyboard, if its bytes are to come again.
    pub replay: Option<&'a str>,
    /// The path of a file of labels, if one is given.
    pub labels: Option<&'a str>,
    /// The path of a listing, if one is given.
    pub list: Option<&'a str>,
    /// The path of the .COM file.
    pub program: &'a str,
    /// The words of the program's command line.
    pub words: Vec<&'a str>,
}

/// `play`: runs a program for somebody at a keyboard.
#[derive(Debug, Drop)]
pub struct Play<'a> {
    /// The path of the image of its disk, if one is given.
    pub disk: Option<&'a str>,
    /// Whether that image is locked.
    pub lock: bool,
    /// The most steps that the program may take. `None` for the caller's default.
    pub steps: Option<u64>,
    /// Whether each key comes as it is pressed, because the terminal was put into that mode.
    pub raw: bool,
    /// The codes of the terminal that the program was made for, if they are given.
    pub terminal: Option<&'a str>,
    /// The path of the file to write with each byte that came, if one is given.
    pub record: Option<&'a str>,
    /// The path of the file of an earlier session, if it is to be played again.
    pub replay: Option<&'a str>,
    /// The path of the .COM file.
    pub program: &'a str,
    /// The words of the program's command line.
    pub words: Vec<&'a str>,
}

/// The job that the words ask for.
#[derive(Debug, Drop)]
pub enum Job<'a> {
    /// No words: assembles the source on standard input to a .COM file, and prints its bytes in hexadecimal.
    Pipe,
    Asm(Asm<'a>),
    Link(Link<'a>),
    Build(Build<'a>),
    Explain(Explain<'a>),
    Check(Check<'a>),
    Dis(Dis<'a>),
    Disk(DiskJob<'a>),
    Run(Run<'a>),
    Debug(Debugging<'a>),
    Play(Play<'a>),
}
