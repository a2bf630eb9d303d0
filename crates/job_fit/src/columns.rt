// What a job's columns give: rows 1 to n, and the floats of its figures.
ghost use Rattle.std.specs.Prelude.{◌≡◌, map, ◌+◌, ◌≤◌, length, take};
ghost use Rattle.job_record.specs.Form.{most_job_steps};
ghost use Rattle.arithmetic.specs.Row.{row};
ghost use Rattle.figure.specs.Figure.{pattern_float};

use job_record::MOST_STEPS;

fn no_rows() -> [u64; MOST_STEPS]
    ensures { length result ≡ most_job_steps }
{
    [0; MOST_STEPS]
}

fn no_figures() -> [f64; MOST_STEPS]
    ensures { length result ≡ most_job_steps }
{
    [0.0; MOST_STEPS]
}

// Rows 1 to `count`, zeros after them.
pub(crate) fn rows_of(count: usize) -> [u64; MOST_STEPS]
    requires { count ≤ most_job_steps }
    ensures { (length result ≡ most_job_steps) × (take count result ≡ row count (λ k. k + 1)) }
{
    let mut rows = no_rows();
    for (index, row) in rows[..count].iter_mut().enumerate() {
        *row = (index + 1) as u64;
    }
    rows
}

// The floats of the first `count` patterns, zeros after them.
pub(crate) fn figures_of(patterns: [u64; MOST_STEPS], count: usize) -> [f64; MOST_STEPS]
    requires { count ≤ most_job_steps }
    ensures { (length result ≡ most_job_steps) × (take count result ≡ map pattern_float (take count patterns)) }
{
    let mut figures = no_figures();
    for (index, pattern) in patterns[..count].iter().enumerate() {
        figures[index] = figure::of_pattern(*pattern);
    }
    figures
}
