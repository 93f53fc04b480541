//! Definitions of what `unifdef-tree -p` makes of a text: conditions without the operands that the
//! symbols decide, and directives over several lines on one.
//!
//! `specs/SimplifiedTexts.antt` and `specs/FoldedTexts.antt` have the two texts. The passes of
//! `ud_passes` make them, and laws of `ud_laws` say what they mean. A definition that both use
//! belongs here.
#![tactic(auto)]
