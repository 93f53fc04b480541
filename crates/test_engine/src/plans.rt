//! Command lines: their settings and symbols, and their faults.

use std::alloc::{AllocError, Global};
use std::process::Abort;
use std::test::Fail;
use ud_cond::Entry;
use ud_model::{ExitMode, Listing, Settings};
use unifdef::{Plan, Usage, input_of, plan};

/// Returns owned arguments.
fn owned(alloc: Global, args: &[&str]) -> Result<Vec<String>, AllocError> {
    let mut owned = Vec::new(alloc);
    for word in args {
        owned.push(String::from_str(alloc, word)?)?;
    }
    Ok(owned)
}

/// Returns the plan of arguments that have no fault.
fn planned(rt: &impl Abort, alloc: Global, args: &[String]) -> Plan {
    plan(alloc, args).expect(rt, "the words have no fault")
}

/// Compares the settings of a command line.
fn check_settings(rt: &impl Abort, plan: &Plan, settings: Settings) {
    assert_eq!(rt; plan.settings(), settings);
}

/// Compares the settings of command lines.
fn check_all_settings(
    rt: &(impl Abort + AllocGlobal),
    rows: &[(&[&str], Settings)],
) -> Result<(), AllocError> {
    for &(args, settings) in rows {
        let args = owned(rt.alloc(), args)?;
        check_settings(rt, &planned(rt, rt.alloc(), args.as_slice()), settings);
    }
    Ok(())
}

#[test]
fn the_arguments_give_the_settings(rt: HostRuntime) -> Result<(), Fail> {
    let usual = Settings::default();
    let cases: [(&[&str], Settings); 4] = [
        // Without arguments, the settings are the usual ones.
        (&[], usual),
        // Several letters may be in one argument.
        (
            &["-kbUA"],
            Settings {
                constants: true,
                blank: true,
                ..usual
            },
        ),
        // Flags are kept as they were given.
        (
            &["-Slns", "-ctK"],
            Settings {
                plain: true,
                strict: true,
                blank: true,
                complement: true,
                renumber: true,
                listing: Listing::Depths,
                ..usual
            },
        ),
        (
            &["-i", "DA", "-siUB", "-iDC=a=b"],
            Settings {
                listing: Listing::Names,
                ..usual
            },
        ),
    ];
    check_all_settings(&rt, &cases)?;
    Ok(())
}

/// Arguments, and their exit mode: the last one counts.
const MODES: &[(&[&str], ExitMode)] = &[
    (&["-x1", "-x0", "-DA"], ExitMode::Zero),
    (&["-x", "1", "-DA"], ExitMode::One),
    (&["-x0", "-tx2"], ExitMode::Two),
];

/// Compares the exit mode of a command line.
fn check_mode(rt: &impl Abort, plan: &Plan, mode: ExitMode) {
    assert_eq!(rt; plan.settings().exit_mode, mode);
}

/// Compares the exit modes of command lines.
fn check_modes(
    rt: &(impl Abort + AllocGlobal),
    rows: &[(&[&str], ExitMode)],
) -> Result<(), AllocError> {
    for &(args, mode) in rows {
        let args = owned(rt.alloc(), args)?;
        check_mode(rt, &planned(rt, rt.alloc(), args.as_slice()), mode);
    }
    Ok(())
}

#[test]
fn the_last_exit_mode_counts(rt: HostRuntime) -> Result<(), Fail> {
    check_modes(&rt, MODES)?;
    Ok(())
}

/// Arguments whose symbols have values.
const VALUES: &[&str] = &["-UA", "-D", "A=B", "-DB=3", "-DC="];

/// Arguments whose symbols are ignoring.
const IGNORING: &[&str] = &["-i", "DA", "-siUB", "-iDC=a=b"];

/// Arguments, a name, and its entry: its value, and whether it is ignoring.
const SYMBOLS: &[(&[&str], &[u8], Option<&[u8]>, bool)] = &[
    (&["-kbUA"], b"A", None, false),
    // An option's argument is the rest of its word or the next word.
    (VALUES, b"A", Some(b"B"), false),
    (VALUES, b"B", Some(b"3"), false),
    (VALUES, b"C", Some(b""), false),
    // An ignoring symbol is reported.
    (IGNORING, b"A", Some(b"1"), true),
    (IGNORING, b"B", None, true),
    (IGNORING, b"C", Some(b"a=b"), true),
];

/// Compares the entry of a name.
fn check_symbol(rt: &impl Abort, plan: &Plan, name: &[u8], entry: Option<Entry<'_>>) {
    assert!(rt;
        plan.symbols().find(name) == entry,
        "{}",
        name.escape_ascii()
    );
}

/// Compares the entries of names.
fn check_symbols(
    rt: &(impl Abort + AllocGlobal),
    rows: &[(&[&str], &[u8], Option<&[u8]>, bool)],
) -> Result<(), AllocError> {
    for &(args, name, value, ignoring) in rows {
        let args = owned(rt.alloc(), args)?;
        let plan = planned(rt, rt.alloc(), args.as_slice());
        check_symbol(rt, &plan, name, Some(Entry { value, ignoring }));
    }
    Ok(())
}

#[test]
fn the_arguments_give_the_symbols(rt: HostRuntime) -> Result<(), Fail> {
    check_symbols(&rt, SYMBOLS)?;
    check_symbol(&rt, &planned(&rt, rt.alloc(), &[]), b"A", None);
    Ok(())
}

/// Arguments, the index of the operand, and the index of the operand that names a file.
const PLACES: &[(&[&str], Option<usize>, Option<usize>)] = &[
    (&[], None, None),
    (&["-DA"], None, None),
    (&["-DA", "f.c"], Some(1), Some(1)),
    (&["-DA", "-"], Some(1), None),
    (&["-DA", "--", "-"], Some(2), None),
    (&["--", "-B"], Some(1), Some(1)),
    (&["--", "--"], Some(1), Some(1)),
    (&["-D", "A", ""], Some(2), Some(2)),
];

/// Compares the index of the operand.
fn check_operand(rt: &impl Abort, plan: &Plan, operand: Option<usize>) {
    assert_eq!(rt; plan.operand(), operand);
}

/// Compares the index of the operand that names a file.
fn check_input(rt: &impl Abort, args: &[String], file: Option<usize>) {
    assert_eq!(rt; input_of(args), file);
}

/// Compares the indices of operands.
fn check_places(
    rt: &(impl Abort + AllocGlobal),
    rows: &[(&[&str], Option<usize>, Option<usize>)],
) -> Result<(), AllocError> {
    for &(args, operand, file) in rows {
        let args = owned(rt.alloc(), args)?;
        check_operand(rt, &planned(rt, rt.alloc(), args.as_slice()), operand);
        check_input(rt, args.as_slice(), file);
    }
    Ok(())
}

#[test]
fn the_operand_has_a_place(rt: HostRuntime) -> Result<(), Fail> {
    check_places(&rt, PLACES)?;
    Ok(())
}

/// Arguments with a fault.
const FAULTS: &[(&[&str], Usage)] = &[
    // A letter that is no option is reported.
    (&["-B"], Usage::UnknownOption { letter: 'B' }),
    (&["--x"], Usage::UnknownOption { letter: '-' }),
    (&["---"], Usage::UnknownOption { letter: '-' }),
    (&["-b-"], Usage::UnknownOption { letter: '-' }),
    (&["-té"], Usage::UnknownOption { letter: 'é' }),
    (&["-B", "-D"], Usage::UnknownOption { letter: 'B' }),
    // A missing argument of an option is reported.
    (&["-D"], Usage::MissingArgument { letter: 'D' }),
    (&["-tD"], Usage::MissingArgument { letter: 'D' }),
    (&["-i"], Usage::MissingArgument { letter: 'i' }),
    (&["-DA", "-bx"], Usage::MissingArgument { letter: 'x' }),
    // The argument of a bad symbol is reported.
    (&["-U", "1A"], Usage::BadSymbol { word: 2 }),
    (&["-iX"], Usage::BadSymbol { word: 1 }),
    (&["-iD", "A"], Usage::BadSymbol { word: 1 }),
    (&["-D", "-U"], Usage::BadSymbol { word: 2 }),
    (&["-D", "--", "-B"], Usage::BadSymbol { word: 2 }),
    (&["-D", ""], Usage::BadSymbol { word: 2 }),
    (&["-Udefined"], Usage::BadSymbol { word: 1 }),
    (&["-D=1"], Usage::BadSymbol { word: 1 }),
    (&["-UA=1"], Usage::BadSymbol { word: 1 }),
    (&["-D", "1A", "-B"], Usage::BadSymbol { word: 2 }),
    // The argument of a bad exit mode is reported.
    (&["-x3"], Usage::BadMode { word: 1 }),
    (&["-x0x"], Usage::BadMode { word: 1 }),
    (&["-x00"], Usage::BadMode { word: 1 }),
    (&["-x", "3"], Usage::BadMode { word: 2 }),
    (&["-x", ""], Usage::BadMode { word: 2 }),
    // A second operand is reported.
    (&["a", "b"], Usage::TooManyFiles),
    (&["-DA", "-", "-b"], Usage::TooManyFiles),
    (&["a", "--"], Usage::TooManyFiles),
    (&["a", "-B"], Usage::TooManyFiles),
    (&["--", "-b", "c"], Usage::TooManyFiles),
];

/// Compares the fault of a command line.
fn check_fault(rt: &impl Abort, alloc: Global, args: &[String], usage: Usage) {
    let fault = plan(alloc, args).err();
    assert!(rt; fault == Some(usage), "{fault:?} in place of {usage:?}");
}

/// Compares the faults of command lines, which name no file.
fn check_faults(
    rt: &(impl Abort + AllocGlobal),
    rows: &[(&[&str], Usage)],
) -> Result<(), AllocError> {
    for &(args, usage) in rows {
        let args = owned(rt.alloc(), args)?;
        check_fault(rt, rt.alloc(), args.as_slice(), usage);
        check_input(rt, args.as_slice(), None);
    }
    Ok(())
}

#[test]
fn the_first_fault_is_reported(rt: HostRuntime) -> Result<(), Fail> {
    check_faults(&rt, FAULTS)?;
    Ok(())
}
