//! Where an engine's plan comes from.
//!
//! An engine borrows its plan or owns it: C keeps an engine from call to call, and can't keep the
//! plan that it borrows beside it. Rejected: the plan as an argument of each call, which could be
//! another one; a count of references, which takes memory.

ghost use Rattle.std.specs.Prelude.{◌≡◌};
ghost use Rattle.ud_args.specs.Plans.{PlanState};

use ud_args::Plan;
use ud_cond::Symbols;
use ud_model::Settings;

/// A plan, or a reference to one.
///
/// An engine's type parameter is `&Plan` if it borrows its plan, and `Plan` if it owns it.
pub trait PlanSource: Drop {
    /// The plan.
    ghost plan: { Self → PlanState };

    /// Returns the plan's settings.
    fn settings(&self) -> Settings
        ensures { result ≡ (plan self.now).settings };

    /// Returns the plan's table of symbols.
    fn symbols(&self) -> &Symbols
        ensures { result.now ≡ (plan self.now).symbols };
}

impl PlanSource for Plan {
    ghost plan = { λ p. p };

    fn settings(&self) -> Settings {
        Plan::settings(self)
    }

    fn symbols(&self) -> &Symbols {
        Plan::symbols(self)
    }
}

impl<'p> PlanSource for &'p Plan {
    ghost plan = { λ p. p.now };

    fn settings(&self) -> Settings {
        Plan::settings(*self)
    }

    fn symbols(&self) -> &Symbols {
        Plan::symbols(*self)
    }
}
