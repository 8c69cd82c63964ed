// What a line of a sheet can ask for.
use super::values::Values;
use plans::Way;

#[derive(Clone, Copy)]
pub enum Job {
    // set a diagonal of this span and rise
    Diagonal(u32, u32),
    // set a table of these values
    Table(Values),
    // run a plan, made for so many questions, with as many
    Run(Way, u32),
}
