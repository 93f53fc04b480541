//! The arguments of `-g` that matched nothing.

ghost use Rattle.std.specs.Prelude.{◌≡◌, false, true, map};
ghost use Rattle.std.specs.List.{flat_map};
ghost use Rattle.ud_io.specs.Streams.{Sends, stream_of};
ghost use Rattle.ud_tree.specs.Reports.{Says};
ghost use Rattle.ud_tree.specs.Unmatched.{rule_line, rule_lines};

use crate::job::Job;
use crate::report::{Report, report_line};
use std::alloc::Global;
use std::io::Write;
use ud_io::Watched;

/// Writes a line for each of some quoted arguments.
fn report_each<E: Write>(alloc: Global, err: &mut Watched<E>, rules: &[Vec<u8>])
    ensures { Sends (stream_of E.contents err.old) (stream_of E.contents err.new)
        (flat_map rule_line (map (λ r. r.items) rules.now)) }
{
    for rule in rules {
        report_line(alloc, err, &[b"-g ", rule.as_slice(), b" matched nothing"]);
    }
}

impl<E: Write> Report<E> {
    /// Writes a line for each argument of `-g` that matched nothing, unless the run is quiet.
    pub(crate) fn report_rules(&mut self, job: &Job<'_>, rules: &[Vec<u8>])
        ensures said { self.old.is_shown ≡ false → Says self.old self.new
            (rule_lines job.now.arguments.now (map (λ r. r.items) rules.now)) }
        ensures quiet { job.now.arguments.now.quiet ≡ true → self.new ≡ self.old }
    {
        if job.arguments.quiet {
            return;
        }
        report_each(self.alloc, &mut self.err, rules);
    }
}
