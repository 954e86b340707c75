//! The text at the end of each command's help, after its arguments: what the command reads, writes and prints, and an example.

/// The text at the end of the help of `z80dev` itself.
pub(crate) const WITHOUT_COMMAND: &str =
    r"Without a command, z80dev reads a source file from standard input to its end
(at a terminal, press Ctrl-D) and prints the program's bytes in hexadecimal.

Example: printf 'JP X\nNOP\nX: RET\n' | z80dev
prints 180100c9.

Example: z80dev build -o game main.asm print.asm
writes game.com, which `z80dev run game.com` runs.

Example: z80dev explain main.asm print.asm
prints every error that it can know of these sources, and often what to write
instead.

`z80dev COMMAND --help` explains what a command reads, writes and prints.
docs/GUIDE.md in the sources takes you through a whole program.";

pub(crate) const ASM: &str =
    r"Reads SRC and writes the object file BASE.zmo for `z80dev link`. Prints
nothing but warnings. If SRC or a FILE has the path BASE.zmo, nothing is
written, and there is a line `error: Overwrites(PATH)`. Without --out, BASE is
the path of SRC without its ending.

`z80dev build --help` explains --define, --with and --no-warn.

Example: z80dev asm main.asm
writes main.zmo.";

pub(crate) const LINK: &str =
    r"Reads each OBJ, links them in the order given, and writes three files:
BASE.siz, the size of each statement; BASE.crt, the certificate that no choice
of short and long jumps gives fewer bytes; and BASE.com, the program. If no
choice fits, it writes BASE.siz and BASE.crt only, and the certificate shows
why. Prints nothing. If an OBJ has the path of one of these files, nothing is
written, and there is a line `error: Overwrites(PATH)`. Without --out, BASE is
the path of the first OBJ without its ending.

`z80dev build --help` explains --map and --symbols. An object file does not tell
code from data, so the map has one number for both.

Example: z80dev link -o game main.zmo print.zmo
writes game.siz, game.crt and game.com.";

pub(crate) const BUILD: &str =
    r"Reads each SRC, assembles and links them in the order given, and writes three
files: BASE.siz, the size of each statement; BASE.crt, the certificate that no
choice of short and long jumps gives fewer bytes; and BASE.com, the program. If
no choice fits, it writes BASE.siz and BASE.crt only, and the certificate shows
why. Prints nothing but warnings; with --grow, prints a line `grown PATH(LINE)`
for each JR that became a JP.

Without --out, BASE is the path of the first SRC without its ending: src/game
for src/game.asm. With --out, an ending is added all the same: --out game.com
writes game.com.com, and --out folder/ writes folder/.com. With --list, it also
writes BASE.lst and BASE.sym.

With --map, it also writes BASE.map, for people: the addresses of each module,
its bytes of code, data and space, its public names, the jumps that are short
and long, and how much room is left. With --symbols zsid, BASE.sym is a file for
the debuggers ZSID and SID, and not one for --labels of run and debug; with
--symbols ucsim, it writes BASE.ucsim for the simulator of SDCC.

--define and --with may be given several times. Each source is assembled as if
a line `NAME EQU VALUE` for each definition and then all lines of each FILE
stood before its own first line. A FILE is for EQU lines, macros, conditions
and repetitions; a line that makes bytes or a label is refused, as in
`error: defs.inc(7): NotShared`. VALUE is a number as in a source: 12, 0FFH or
101B.

A file that it writes replaces one of the same name without a warning, even one
that is write-protected. But if a SRC or a FILE has the path of one of them,
nothing is written, and there is a line `error: Overwrites(PATH)`. So it is if
one is written ./game.com and the other game.com, but not if one is a link to
the other.

A line such as `warning: game.asm(12): ..` tells of code that relies on the
length of a jump that may be short or long. The files are written all the same,
and the status is 0. --no-warn leaves these lines out.

A line such as `error: game.asm(12): Undefined` names the first error, and the
status is 1. `z80dev explain` prints every error that it can know, with its line
and often what to write instead. It also says which line it is if the error has
none here, as `error: Range(5)`.

Example: z80dev build --list -o game main.asm print.asm
writes game.siz, game.crt, game.com, game.lst and game.sym.

Example: z80dev build --define DEBUG=1 --with screen.inc main.asm
defines DEBUG in main.asm, which may use the macros of screen.inc.";

pub(crate) const EXPLAIN: &str =
    r"Reads each SRC as `z80dev build` does, and prints every error that it can know:
its place, what is wrong, and often what to write instead.

main.asm:2:8: error: `LOP` is not defined [Undefined]
  2 |  JP NZ,LOP
    |        ^^^
  help: there is a label `LOOP` (line 1)

The place is the path, the line and the column, which counts bytes from 1. The
name in brackets is the one that `z80dev build` prints. If there is no error,
explain prints the warnings: about jumps, about labels and externals that are
not used, about names that are in PUBLIC or EXTRN twice, and about macro calls
with too many or too few arguments. It prints at most 100 errors or warnings,
and then how many more there are; with --json, all of them. It writes no file.
`z80dev build --help` explains --define and --with.

Errors in a macro have the line of the macro's body, as it is with the arguments
of the call, and a note for each call that led there. Some errors hide others,
so run explain again when these are mended.

With --jumps, it also prints a note for each jump that could be short but is
long: how far its target is, how many bytes too many, and which other long jumps
between them it needs. With --json, each message is one line, an object with
path, line, column, severity, name, text and notes; docs/FORMATS.md describes
it.

The status is 0 if there is a program and no warning, and 1 if there is an error
or a warning; then a line on standard error has the number: `error: 3 errors` or
`error: 1 warning, no error`. It is 3 if a file cannot be read or standard output
fails, and 2 if a word of the command is wrong.

Example: z80dev explain main.asm print.asm";

pub(crate) const CHECK: &str =
    r"Reads the sizes and the certificate that link and build write, and prints one
line. `best N` means that some choice of short and long jumps fits and has N
bytes, and that no choice that fits has fewer. The other two mean that no choice
fits: `range K` because statement K, counted from 0, is too far from its label
in every choice in which the other jumps reach theirs; `size N` because each of
these choices has at least N bytes, more than there is room for.
Writes nothing.

Example: z80dev check game.siz game.crt
prints a line such as best 260.";

pub(crate) const DIS: &str =
    r"Reads COM, a program that CP/M loads at 0100H, and prints a source file from
which `z80dev build` makes the same bytes. Writes nothing.

What the program reaches from 0100H by jumps and calls is printed as
instructions, and the rest as data. If it also jumps to an address that it
computes or reads from a table, give that address with --entry. A call is taken
to return. So if a text follows a CALL, give its address with --data, and the
address of the code after the text with --entry: the byte at an address of
--data is no part of an instruction. Both may be given several times. ADDR and
DATA are numbers as in a source, such as 0150H or 336. Do not leave out the H:
0150 is 150, while a command of `z80dev debug` takes 0150 as 0150H.

If a line of DB comes right after an instruction that is no jump and no return,
one of the two may be wrong: see whether a text follows a CALL there, or an
address of --entry lies in data.

With --labels, the labels have the names of SYM, which `z80dev build --list`
writes, except those that two modules have. Without a name, a label is L and its
address, such as L0150.

Example: z80dev dis game.com >again.asm
writes again.asm.

Example: z80dev dis --labels game.sym --entry 0150H game.com
prints the source with the names of game.sym.

Example: z80dev dis --data 0103H --entry 0109H game.com
takes the six bytes from 0103H for data.";

pub(crate) const DIR: &str =
    r"Reads IMG and prints a line for each file: its user, its name, its length in
records of 128 bytes, then RO if it is read-only and SYS if it is a system file.
With --long, also prints its bytes, directory entries and blocks, and at the end
what is free. Writes nothing.

With NAME, which is in upper case, prints only the files that match: ? matches
any one character, and at the end of the name or of the type also none; * at the
end of either matches the rest of it. That no file matches is an error.

Example: z80dev dir a.img
prints lines such as 0 GAME.COM 3.

Example: z80dev dir --user 3 a.img '*.COM'
prints the lines of user 3's programs.";

/// The two forms of `put`, for its usage line.
pub(crate) const PUT_FORMS: &str = r"z80dev put [OPTIONS] <IMG> <FILE> <NAME>
       z80dev put [OPTIONS] --to <IMG> <FILE>...";

pub(crate) const PUT: &str =
    r"Reads IMG and FILE, and writes IMG with FILE added under NAME, which is in upper
case, as GAME.COM. The last record is filled up with 1AH. Prints nothing.

With --to, adds several files, each under its own name: the last part of its
path, in upper case. Either all of them are added or none.

A file of that name on the disk is replaced only with --replace. It is replaced
in one step: IMG has the old file or the new one.

With --text, each LF becomes CR LF, and 1AH is added at the end.

`error: BadName` means that NAME has a lower-case letter or is no name of CP/M
in another way; `z80dev put --to` writes the name in upper case itself. IMG
comes first, also with --to: a file that is no image may count as a short image
without files, and is then written over. An IMG that ends with .com or .asm, as
a program or a source does, is refused: `error: Overwrites(IMG)`.

IMG is locked from before it is read until it is replaced. A second command that
needs the lock waits up to a second, then ends with `error: file IMG`, status 3.
With --no-lock, nothing waits, and of two commands that change IMG at the same
time one may undo what the other did, or end with that error and lose its own
changes. The error is the same if IMG is missing, is write-protected or is a
symbolic link to nothing.

If its bytes stay the same, IMG is not written. If IMG is write-protected, it is
not replaced. It keeps its permissions, and its owner if the system allows it.
If IMG is a symbolic link, the link stays and the file that it points to is
replaced. Other hard links keep the old contents.

Example: z80dev put a.img game.com GAME.COM

Example: z80dev put --to --replace a.img game.com notes.txt
adds or replaces GAME.COM and NOTES.TXT.";

/// The two forms of `get`, for its usage line.
pub(crate) const GET_FORMS: &str = r"z80dev get [OPTIONS] <IMG> <NAME> <FILE>
       z80dev get [OPTIONS] --all <IMG> <FOLDER>";

pub(crate) const GET: &str =
    r"Reads IMG and writes the user's file NAME to FILE, in whole records of 128
bytes. NAME is in upper case, as GAME.COM. If FILE exists, it is replaced
without a warning, unless it is IMG: then there is a line
`error: Overwrites(FILE)`. Prints nothing, and leaves IMG as it is.

NAME may have ? and * in it, as `z80dev dir --help` explains. Each file that
matches is then written into the folder FILE under its own name. With --all,
every file of the user is written into FOLDER. The folder has to be there. Files
of these names in the folder are replaced too, so use a folder of its own.

With --text, a file ends at its first 1AH, and each CR LF becomes LF.

Example: z80dev get a.img GAME.COM game.com

Example: z80dev get --text a.img '*.ASM' sources
writes the files of type ASM into the folder sources.";

pub(crate) const ERASE: &str =
    r"Reads IMG and writes it without the files NAME. Each NAME is in upper case, as
GAME.COM; it may have ? and * in it, as `z80dev dir --help` explains. If one of
the files is read-only, nothing is erased, and there is a line such as
`error: ReadOnly(GAME.COM)`. If a NAME matches no file besides those of the NAMEs
before it, nothing is erased either: `error: NotFound(GAME.COM)`. Prints nothing.

IMG is locked and replaced as `z80dev put --help` explains.

Example: z80dev erase a.img NOTES.TXT '*.BAK'";

pub(crate) const RENAME: &str =
    r"Reads IMG and writes it with the file OLD under the name NEW. Both names are in
upper case, as GAME.COM. Prints nothing.

IMG is locked and replaced as `z80dev put --help` explains.

Example: z80dev rename a.img GAME.COM CHESS.COM";

pub(crate) const PROTECT: &str =
    r"Reads IMG and writes it with the files NAME made read-only, or with --system
marked as system files. Each NAME is in upper case, as GAME.COM; it may have ?
and * in it, as `z80dev dir --help` explains. Prints nothing.

IMG is locked and replaced as `z80dev put --help` explains.

Example: z80dev protect a.img '*.COM'";

pub(crate) const UNPROTECT: &str =
    r"Reads IMG and writes it with the files NAME made writable, or with --system no
longer marked as system files. Each NAME is in upper case, as GAME.COM; it may
have ? and * in it, as `z80dev dir --help` explains. Prints nothing.

IMG is locked and replaced as `z80dev put --help` explains.

Example: z80dev unprotect a.img '*.COM'";

pub(crate) const CHECK_DISK: &str =
    r"Reads IMG and prints a line for each directory entry that breaks a rule: its
number, its user, its name and the rule. Writes nothing.

If no entry breaks a rule, the status is 0 and nothing is printed. If one does,
the status is 1, and a line `error: ..` on standard error has the first of these
rules.

Example: z80dev check-disk a.img";

pub(crate) const BLANK: &str =
    r"Writes IMG: an eight inch disk, single density, of 256,256 bytes, or with --mega
one of 1,048,576 bytes. If IMG exists, it is replaced without a warning, and the
files on it are lost, read-only ones too. With --keep, an IMG that exists stays
as it is, and there is a line `error: Exists`. Prints nothing.

IMG is locked and replaced as `z80dev put --help` explains, also if it is blank
already.

Example: z80dev blank --keep a.img";

pub(crate) const DEBUG: &str =
    r"Reads COM and then commands from standard input, a line each, and prints an
answer to each before it reads the next. The commands step, next, finish and run
make steps of the program, back, back-next and back-run go back, turn goes to any
state, and break, watch and who find the place. `help` prints all of them, or the
line of one, as `help run`; `quit` ends the session. A command may be shortened,
as `s` for step. `break` and `watch` print what they set.

Nothing is written: what the program writes to its disk is gone at the end. What
it prints is shown after `| `. What it gets as typed comes from FILE, with each
line end as one CR. With --replay, the session that `z80dev play --record` wrote
to REC is debugged: each of its bytes comes after the same number of steps. With
--labels, an address may be given as a label of SYM, and is printed with the
label before it. With --list, where also shows the line of LST. Both are files
that `z80dev build --list` writes.

The status is 0 at the end of the commands, and 1 with a line `error: ..` if the
program is too long, its words are, IMG is not an image of a disk, SYM is not a
file of labels, or REC is not the record of a session. It is 2 if a word of the
command is wrong, and 3 if a file cannot be read, or standard input or output
fails.

Example: z80dev debug --labels game.sym game.com
waits for a command, such as step, regs, back, help or quit.";

pub(crate) const PLAY: &str =
    r"Reads IMG and COM and runs the program, which gets each byte of standard input
as it comes. Start it at a terminal by the script z80dev-play, with the same
words: the script puts the terminal into the mode in which each key comes as it
is pressed (--raw), and puts it back at the end. Without the script, input comes
by lines, and an LF is the key RETURN. What the program prints is shown when it
asks for input, and otherwise within 4,000,000 steps.

Under z80dev-play, press Ctrl-\ twice to leave; Ctrl-C is the program's own.
Without the script, each of them ends z80dev itself at a terminal, and nothing
is written.

A call that takes a byte or a line waits for it; function 10 shows the line as
it is typed. A call that asks whether a byte is there is answered by what has
come. The screen codes of the Kaypro, the Osborne and the ADM-3A (adm3a) or of
the VT52 (vt52) become those of today's terminals; with none, bytes are shown as
they are.

Writes IMG at the end as `z80dev run` does, also if you leave. With --record, it
writes FILE, a line for each byte that came: the number of steps before it, and
the byte in hexadecimal; and at the end the number of steps. With --replay, it
plays the session of such a file REC again, and standard input is not read: with
the same program, words and image, each step is the same as then.

The status is 0 if the program finished, you left, or the session of REC is
over; 1 with a line `stopped: WHY at PPPP` if the program was stopped, or with a
line `error: ..` if IMG is not an image of a disk or REC is not the record of a
session; 2 if a word of the command is wrong, as a FILE that is COM, IMG or REC
or ends with .com, .asm or .img; and 3 if a file cannot be read or written, IMG
cannot be locked, or standard input or output fails.

Example: z80dev-play --disk game.img game.com
runs game.com at the keyboard.";

pub(crate) const RUN: &str =
    r"Reads IMG, COM and all of standard input, which is what the program gets as its
typed input, and only then starts the program. At a terminal, press Ctrl-D to
end the input; if the program reads nothing, give it </dev/null.

COM is a file of your system, not of IMG: `z80dev get` gets a program from an
image.

Prints what the program prints. Writes IMG when the program ends, however it
ends, unless its bytes would stay the same; one that is shorter than 256,256
bytes is filled up. If run itself is killed, for example by Ctrl-C, IMG stays as
it was.

IMG is locked from before it is read until the end of the run, and replaced as
`z80dev put --help` explains, so no other command changes it meanwhile. With
--no-lock, what another command writes to IMG during the run may be lost.

--regs prints the registers and the stack on standard error when the run has
ended. --last prints its last COUNT steps there, each as a line of the trace, if
it is stopped, or comes to its end from outside the program's bytes. (A program
that jumps to 5 for its last call, by JP 5 with another function than 0 in C,
counts as such a one, and is right.)

--trace writes such a line for each of the first 1,000,000 steps to TRC: its
number, the address, the label, the instruction's bytes and text, and the
registers that it changed. A TRC or PRF that exists is replaced without a
warning. --profile writes to PRF how often the instruction at each address ran,
most often first; with --list, it writes the lines of LST instead, each after
how often its instruction ran. With --labels, each address has the label of SYM
before it and how many bytes after it.

The status is 0 if the program ends by itself, also if it ran on past its last
byte and came to its end by mistake, which only --regs and --last tell. It is 1
if something stops it or it is too long to be loaded; then standard error has a
line `stopped: WHY at PPPP`. If a file or an option is at fault, there is a line
`error: ..` instead: the status is 1 if IMG is not an image of a disk, if SYM is
not a file of labels, if TRC or PRF is a file that is read or ends with .com,
.asm or .img, or they are the same, if IMG ends with .com or .asm, or if --list
is given without --profile, or --labels without --regs, --last, --trace and
--profile, and 3 if a file cannot be read or written or IMG cannot be locked. If
TRC or PRF cannot be written, the line comes after the others.

Example: z80dev run --disk a.img game.com FILE.TXT";
