//! Arguments of a command line.

use crate::random::Random;
use std::alloc::{AllocError, Global};

/// Arguments that define or undefine a symbol, each a single word.
const SYMBOLS: [&str; 26] = [
    "-DA",
    "-UA",
    "-iDA",
    "-iUA",
    "-DA=0",
    "-DA=B",
    "-DA=-1",
    "-DA=9223372036854775807",
    "-DB",
    "-UB",
    "-iDB",
    "-iUB",
    "-DB=A",
    "-DB=2",
    "-DB=0x10u",
    "-DB=",
    "-DC",
    "-UC",
    "-iDC",
    "-iUC",
    "-DC=C",
    "-DC=07",
    "-DC=x y",
    "-DC=1L",
    "-DA=(1)",
    "-DB=defined",
];

const FLAGS: [&str; 16] = [
    "-b", "-c", "-k", "-K", "-l", "-n", "-s", "-S", "-t", "-bc", "-cn", "-bn", "-kK", "-x0", "-x1",
    "-x2",
];

/// Arguments that are faulty, or that need others around them.
const ODD: [&str; 14] = [
    "-",
    "--",
    "f.c",
    "-x3",
    "-B",
    "-D",
    "-U1A",
    "-iX",
    "-Ddefined",
    "",
    "-é",
    "-tD",
    "-x",
    "-i",
];

/// Returns a few arguments: at least one for a symbol, sometimes flags, and seldom something odd.
pub(crate) fn args_of(alloc: Global, random: &mut Random) -> Result<Vec<String>, AllocError> {
    let mut args = Vec::new(alloc);
    for _ in 0..1 + random.below(4) {
        args.push(String::from_str(alloc, SYMBOLS[random.below(SYMBOLS.len())])?)?;
    }
    for _ in 0..random.below(3) {
        args.push(String::from_str(alloc, FLAGS[random.below(FLAGS.len())])?)?;
    }
    if random.one_in(40) {
        args.push(String::from_str(alloc, ODD[random.below(ODD.len())])?)?;
    }
    Ok(args)
}
