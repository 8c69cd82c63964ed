// A plan that is one of the two.
ghost use Rattle.plans.specs.Either.{asked_by, any_is_lawful};

use super::asking::Plan;
use super::rectangles::WidestRectangle;
use super::spacings::EqualSpacing;
use logs::Log;

#[derive(Clone, Copy)]
pub enum AnyPlan {
    EqualSpacing(EqualSpacing),
    WidestRectangle(WidestRectangle),
}

impl Plan for AnyPlan {
    ghost asks = { asked_by };

    ghost lawful = { any_is_lawful };

    fn next(&mut self, log: &Log) -> Option<u32> {
        match self {
            AnyPlan::EqualSpacing(plan) => plan.next(log),
            AnyPlan::WidestRectangle(plan) => plan.next(log),
        }
    }
}
