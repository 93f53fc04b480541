//! Listing the names of conditions.

ghost use Rattle.ud_model.specs.answer.Listing.{listed_names};
ghost use Rattle.ud_engine.specs.NameLines.{name_line};
ghost use Rattle.ud_io.specs.Streams.{Accepts};

use crate::output::Output;
use std::io::Write;
use ud_cond::Names;
use ud_io::Watched;

/// Appends each name after `prefix`, on a line of its own.
pub(crate) fn append_names<W: Write>(
    output: &mut Output,
    prefix: &[u8],
    names: Names<'_>,
    out: &mut Watched<W>,
)
    ensures { Accepts W.contents output.old output.new out.old out.new
        (listed_names prefix.now names.entry) }
{
    for name in names {
        append_name(output, prefix, name, out);
    }
}

/// Appends `prefix`, `name` and a newline.
fn append_name<W: Write>(output: &mut Output, prefix: &[u8], name: &[u8], out: &mut Watched<W>)
    ensures { Accepts W.contents output.old output.new out.old out.new
        (name_line prefix.now name.now) }
{
    output.append_parts(&[prefix, name, b"\n"], out);
}
