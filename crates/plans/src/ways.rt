// A plan by its name.
ghost use Rattle.std.specs.Prelude.{◌≡◌, Some};
ghost use Rattle.denials.specs.Checks.{Decided};
ghost use Rattle.denials.specs.Told.{told};
ghost use Rattle.plans.specs.Either.{asked_by};
ghost use Rattle.plans.specs.Ways.{plan_of, way_denied, named};

use super::any_plans::AnyPlan;
use super::rectangles::WidestRectangle;
use super::spacings::EqualSpacing;
use denials::Denial;
use std::fmt;

#[derive(Clone, Copy, PartialEq, Eq, Debug)]
pub enum Way {
    EqualSpacing,
    WidestRectangle,
}

impl Way {
    // The plan of this name, made for so many questions.
    pub fn plan(self, questions: u32) -> Result<AnyPlan, Denial>
        ensures { Decided told (way_denied self questions) result (λ p. asked_by p ≡ plan_of self questions) (Unit {0}) }
    {
        match self {
            Way::EqualSpacing => EqualSpacing::new(questions).map(AnyPlan::EqualSpacing),
            Way::WidestRectangle => Ok(AnyPlan::WidestRectangle(WidestRectangle::new())),
        }
    }
}

impl fmt::Display for Way {
    ghost output = { λ w. Some (named w) };

    fn fmt<W: fmt::Write>(&self, f: &mut fmt::Formatter<W>) -> fmt::Result {
        f.write_str(match self {
            Way::EqualSpacing => "equal spacing",
            Way::WidestRectangle => "the widest rectangle",
        })
    }
}
