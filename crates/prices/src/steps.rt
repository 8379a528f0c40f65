// The step table: how far apart prices lie, by price.
ghost use Rattle.std.specs.Prelude.{◌≡◌};
ghost use Rattle.prices.specs.Steps.{house_steps, step_at, step_past};

// From `start` on, up to the next row's start, a price is a multiple of `step`.
#[derive(Clone, Copy, PartialEq, Eq, Debug)]
pub struct StepRow {
    pub start: u32,
    pub step: u32,
}

const STEPS: [StepRow; 6] = [
    StepRow { start: 1, step: 1 },
    StepRow {
        start: 500,
        step: 2,
    },
    StepRow {
        start: 1_000,
        step: 5,
    },
    StepRow {
        start: 5_000,
        step: 25,
    },
    StepRow {
        start: 50_000,
        step: 50,
    },
    StepRow {
        start: 100_000,
        step: 100,
    },
];

// The house's table.
pub fn house_steps() -> [StepRow; 6]
    ensures { result ≡ house_steps }
{
    STEPS
}

// The row's step where the row starts at or below `units`, and else the step so far.
fn step_past(row: StepRow, units: u32, step: u32) -> u32
    ensures { result ≡ step_past row units step }
{
    if row.start <= units { row.step } else { step }
}

// The step of the last row that starts at or below `units`, or 0 where there is none: a row may have step 0 itself, and both make no price.
// Of any table, in order or not, so it looks at every row.
pub fn step_at(rows: &[StepRow], units: u32) -> u32
    ensures { result ≡ step_at rows.now units }
{
    rows.iter()
        .fold(0, |step, row| step_past(*row, units, step))
}
