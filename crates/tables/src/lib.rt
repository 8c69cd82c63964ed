// The mathematics of sealed loggers: tables, logs, limits, plans and runs, with every general theorem.
#![tactic(auto)]

mod least;
mod points;
mod theorems;

pub use least::least_width;
pub use points::Point;
pub use theorems::{
    bench_is_fair, diagonal_floor, figures_are_right, lawful_asks_all, least_is_least,
    limits_are_sharp, no_plan_promises_less, runs_are_determined, spacing_is_even, tables_of_log,
    width_is_gaps,
};
