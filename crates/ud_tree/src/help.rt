//! What `-h` prints.

ghost use Rattle.std.specs.Prelude.{◌≡◌, not};

use crate::report::USAGE;
use crate::send::flush;
use std::io::Write;
use ud_io::{Watched, send, send_parts};

/// A line for each option.
const OPTIONS: [&[u8]; 27] = [
    b"  -0            read the paths from standard input, each ended by a null byte",
    b"  -B            leave out blank lines that only stood there because of removed lines",
    b"  -b            leave removed lines blank",
    b"  -c            complement: keep what would be removed, and remove what would be kept",
    b"  -Dsym[=val]   take a symbol as defined, as 1 or as val",
    b"  '-Dsym>=num'  take a symbol as defined, with a value that is num or more",
    b"  -d            print a diff of what is changed, with which patch -R undoes it",
    b"  -g pattern    select files by name, in place of the usual sources and headers; +pattern",
    b"                selects others too, !pattern leaves out files or directories, and",
    b"                !pattern/ directories alone",
    b"  -h, --help    print this help",
    b"  -iDsym[=val]  as -D, and read text in sections of the symbol as plain text",
    b"  -iUsym        as -U, and read text in sections of the symbol as plain text",
    b"  -K            leave && and || unknown if an operand is",
    b"  -k            decide constant expressions",
    b"  -l            as -b",
    b"  -n            change nothing, and print a diff of what would change",
    b"  -p            remove decided operands from the conditions that stay",
    b"  -q            leave out the last lines with the counts",
    b"  -r            list what still names a symbol; with -s, conditions that are not listed",
    b"  -s            change nothing, and count the names in conditions",
    b"  -t            plain text: parse no comments and quotes",
    b"  -Usym         take a symbol as undefined",
    b"  -V, --version print the version",
    b"  -w            write into files with several links, or in directories that can't be written",
    b"  -xmode        status of success: 0 or 1 by whether files changed, or 0 under -x2",
    b"  --            end of the options",
];

/// Prints how to call the program, and a line for each option. Returns whether all of it was
/// written.
pub fn print_help<W: Write>(out: &mut Watched<W>) -> bool
    ensures { result ≡ not out.new.failed }
{
    send(out, USAGE);
    for line in OPTIONS.as_slice() {
        send_parts(out, &[line, b"\n"]);
    }
    flush(out)
}
