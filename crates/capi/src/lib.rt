// The engine for C, Rust and Python. Each function but the version hands its arguments on to the entry below it and has that entry's contract.
#![tactic(auto)]

ghost use Rattle.std.specs.Prelude.{◌≡◌, length};
ghost use Rattle.lattice.specs.Entries.{
  half_width_answer,
  node_count_answer,
  row_start_answer,
  discounts_needed_answer,
  state_prices_needed_answer,
  branch_answer,
};
ghost use Rattle.quotes.specs.Quotes.{lone_answer};
ghost use Rattle.curve.specs.Curve.{curve_number, curve_memory};
ghost use Rattle.step_rate.specs.StepRate.{rate_answer};
ghost use Rattle.continuous_rate.specs.ContinuousRate.{continuous_rate_answer};
ghost use Rattle.reversion.specs.Reversion.{working_answer};
ghost use Rattle.fitted_laws.specs.Entry.{fit_number, discounts_after, state_prices_after, version_number, version_discounts_after, version_state_prices_after};
ghost use Rattle.row_view.specs.RowView.{range_by_number};
ghost use Rattle.state_price_bound.specs.ErrorBound.{state_price_error_bound_answer};
ghost use Rattle.price_bound.specs.PriceBound.{price_error_bound_answer, tree_bounds_answer};
ghost use Rattle.price_laws.specs.Prices.{bond_price, option_price, bond_and_option, dated_price, bond_and_dated_option};
ghost use Rattle.price_laws.specs.Strips.{option_strip, kind_strip};
ghost use Rattle.valuation.specs.Entries.{value_by_state_prices_answer, valuation_error_bound_answer};
ghost use Rattle.sheet_laws.specs.WholeJob.{sheet_number, sheet_text, sheet_memory};
ghost use Rattle.record_sheet.specs.Answers.{answer_of};
ghost use Rattle.job_record.specs.Reader.{reading_of};
ghost use Rattle.job_record.specs.Grammar.{ReadsAs};
ghost use Rattle.writer_laws.specs.Writer.{written, written_memory};
ghost use Rattle.job_laws.specs.RecordFit.{job_discounts, job_state_prices, memory_after};
ghost use Rattle.job_laws.specs.JobPrices.{bytes_number, bytes_prices};
ghost use Rattle.book_laws.specs.Files.{file_book};
ghost use Rattle.book_laws.specs.Report.{book_lines, lines_answer, lines_memory};
ghost use Rattle.report_laws.specs.Reports.{empty_report};
ghost use Rattle.report_laws.specs.FileReports.{file_report};
ghost use Rattle.report_laws.specs.Joins.{joined_report};
ghost use Rattle.shelf_laws.specs.Shelf.{
  empty_slots,
  part_of,
  ask_number,
  ask_slots,
  ask_memory,
  commit_number,
  commit_slots,
  commit_memory,
  name_cause,
  release_slots,
  release_memory,
};
ghost use Rattle.shelf_prices.specs.ShelfPrices.{shelf_bond, shelf_option, shelf_dated, shelf_bond_and_option, shelf_bond_and_dated};
ghost use Rattle.shelf_prices.specs.ShelfPrices.{shelf_dated_strip, shelf_kind_strip};
ghost use Rattle.bands.specs.Bands.{verdict};
ghost use Rattle.lending.specs.Lending.{lending_worth};
ghost use Rattle.pair_laws.specs.PairPrices.{pair_bond_price, pair_dated_price};
ghost use Rattle.capi.specs.Version.{version};

use arithmetic::Answer;
use bands::Verdict;
use book_laws::BookText;
use job_laws::JobPrices;
use job_record::{Job, Reading};
use lattice::Branches;
use lending::Worth;
use price_bound::TreeErrorBounds;
use price_laws::{BondAndOption, Price, Strip};
use quotes::Point;
use record_sheet::Written;
use report_laws::{Joined, Report};
use row_view::RowRange;
use shelf_laws::{Part, Shelf, Shelved};
use step_rate::Rate;

// The version of what was built, so that a caller can tell an archive or a shared object that is not its own.
#[unsafe(no_mangle)]
pub extern "C" fn mixegorta_version() -> u64
    ensures { result ≡ version }
{
    14_002
}

// ---- the shape of a tree

#[unsafe(no_mangle)]
pub extern "C" fn mixegorta_half_width(reversion: u64, row: usize) -> Answer
    ensures { result ≡ half_width_answer reversion row }
{
    Answer::from(lattice::half_width(reversion, row))
}

#[unsafe(no_mangle)]
pub extern "C" fn mixegorta_node_count(reversion: u64, row: usize) -> Answer
    ensures { result ≡ node_count_answer reversion row }
{
    Answer::from(lattice::node_count(reversion, row))
}

#[unsafe(no_mangle)]
pub extern "C" fn mixegorta_row_start(reversion: u64, row: usize) -> Answer
    ensures { result ≡ row_start_answer reversion row }
{
    Answer::from(lattice::row_start(reversion, row))
}

#[unsafe(no_mangle)]
pub extern "C" fn mixegorta_discounts_needed(steps: usize, reversion: u64) -> Answer
    ensures { result ≡ discounts_needed_answer steps reversion }
{
    Answer::from(lattice::discounts_needed(steps, reversion))
}

#[unsafe(no_mangle)]
pub extern "C" fn mixegorta_state_prices_needed(steps: usize, reversion: u64) -> Answer
    ensures { result ≡ state_prices_needed_answer steps reversion }
{
    Answer::from(lattice::state_prices_needed(steps, reversion))
}

#[unsafe(no_mangle)]
pub extern "C" fn mixegorta_branches(reversion: u64, row: usize, node: i64) -> Branches
    ensures { result ≡ branch_answer reversion row node }
{
    Branches::from(branches::branch(reversion, row, node))
}

#[unsafe(no_mangle)]
pub extern "C" fn mixegorta_working_reversion(version: u64, reversion: u64) -> Answer
    ensures { result ≡ working_answer version reversion }
{
    Answer::from(reversion::working_reversion(version, reversion))
}

// ---- level one: quotes, the fit, rows, rates

#[unsafe(no_mangle)]
pub extern "C" fn mixegorta_quote_discount(frequency: u64, kind: u8, point: Point) -> Answer
    ensures { result ≡ lone_answer frequency kind point }
{
    Answer::from(quotes::lone_point(frequency, kind, point))
}

#[unsafe(no_mangle)]
pub extern "C" fn mixegorta_curve_discounts(
    frequency: u64,
    steps: usize,
    rows: &[u64],
    kinds: &[u8],
    figures: &[f64],
    discounts: &mut [u64],
) -> u64
    ensures number { result ≡ curve_number frequency steps
        rows.now kinds.now figures.now (length discounts.old) }
    ensures memory { discounts.new ≡ curve_memory frequency steps
        rows.now kinds.now figures.now discounts.old }
{
    arithmetic::cause(curve::convert(frequency, steps, rows, kinds, figures, discounts))
}

#[unsafe(no_mangle)]
pub extern "C" fn mixegorta_fit(
    frequency: u64,
    steps: usize,
    reversion: u64,
    volatility: u64,
    rows: &[u64],
    kinds: &[u8],
    figures: &[f64],
    discounts: &mut [u64],
    state_prices: &mut [u64],
) -> u64
    ensures number { result ≡ fit_number frequency steps reversion volatility rows.now kinds.now figures.now
        (length discounts.old) (length state_prices.old) }
    ensures discounted { discounts.new ≡ discounts_after frequency steps reversion volatility
        rows.now kinds.now figures.now discounts.old state_prices.old }
    ensures priced { state_prices.new ≡ state_prices_after frequency steps reversion volatility
        rows.now kinds.now figures.now discounts.old state_prices.old }
{
    arithmetic::cause(fitting::fit(
        frequency,
        steps,
        reversion,
        volatility,
        rows,
        kinds,
        figures,
        discounts,
        state_prices,
    ))
}

#[unsafe(no_mangle)]
pub extern "C" fn mixegorta_fit_version(
    version: u64,
    frequency: u64,
    steps: usize,
    reversion: u64,
    volatility: u64,
    rows: &[u64],
    kinds: &[u8],
    figures: &[f64],
    discounts: &mut [u64],
    state_prices: &mut [u64],
) -> u64
    ensures number { result ≡ version_number version frequency steps reversion volatility
        rows.now kinds.now figures.now (length discounts.old) (length state_prices.old) }
    ensures discounted { discounts.new ≡ version_discounts_after version frequency steps reversion volatility
        rows.now kinds.now figures.now discounts.old state_prices.old }
    ensures priced { state_prices.new ≡ version_state_prices_after version frequency steps reversion volatility
        rows.now kinds.now figures.now discounts.old state_prices.old }
{
    arithmetic::cause(fitting::fit_version(
        version,
        frequency,
        steps,
        reversion,
        volatility,
        rows,
        kinds,
        figures,
        discounts,
        state_prices,
    ))
}

#[unsafe(no_mangle)]
pub extern "C" fn mixegorta_row_range(
    discounts: &[u64],
    state_prices: &[u64],
    kind: u64,
    steps: usize,
    reversion: u64,
    row: usize,
) -> RowRange
    ensures { result ≡ range_by_number steps reversion row kind discounts.now state_prices.now }
{
    row_view::range_by_number(steps, reversion, row, kind, discounts, state_prices)
}

#[unsafe(no_mangle)]
pub extern "C" fn mixegorta_step_rate(discount: u64) -> Rate
    ensures { result ≡ rate_answer discount }
{
    Rate::from(step_rate::of_discount(discount))
}

#[unsafe(no_mangle)]
pub extern "C" fn mixegorta_continuous_rate(discount: u64) -> Rate
    ensures { result ≡ continuous_rate_answer discount }
{
    Rate::from(continuous_rate::of_discount(discount))
}

#[unsafe(no_mangle)]
pub extern "C" fn mixegorta_state_price_error_bound(
    steps: usize,
    reversion: u64,
    discounts: &[u64],
    row: usize,
) -> Answer
    ensures { result ≡ state_price_error_bound_answer steps reversion discounts.now row }
{
    Answer::from(state_price_bound::state_price_error_bound(steps, reversion, discounts, row))
}

// ---- level two: prices on any lent discounts

#[unsafe(no_mangle)]
pub extern "C" fn mixegorta_price_error_bound(
    steps: usize,
    reversion: u64,
    discounts: &[u64],
) -> Answer
    ensures { result ≡ price_error_bound_answer steps reversion discounts.now }
{
    Answer::from(price_bound::price_error_bound(steps, reversion, discounts))
}

#[unsafe(no_mangle)]
pub extern "C" fn mixegorta_tree_bounds(
    steps: usize,
    reversion: u64,
    discounts: &[u64],
) -> TreeErrorBounds
    ensures { result ≡ tree_bounds_answer steps reversion discounts.now }
{
    TreeErrorBounds::from(price_bound::tree_bounds(steps, reversion, discounts))
}

#[unsafe(no_mangle)]
pub extern "C" fn mixegorta_bond_price(
    steps: usize,
    reversion: u64,
    discounts: &[u64],
    flows: &[u64],
) -> Price
    ensures { result ≡ bond_price steps reversion discounts.now flows.now }
{
    pricing::bond_price(steps, reversion, discounts, flows)
}

#[unsafe(no_mangle)]
pub extern "C" fn mixegorta_option_price(
    steps: usize,
    reversion: u64,
    discounts: &[u64],
    flows: &[u64],
    kind: u64,
    expiry: usize,
    strike: u64,
) -> Price
    ensures { result ≡ option_price steps reversion discounts.now flows.now kind expiry strike }
{
    pricing::option_price(steps, reversion, discounts, flows, kind, expiry, strike)
}

#[unsafe(no_mangle)]
pub extern "C" fn mixegorta_bond_and_option(
    steps: usize,
    reversion: u64,
    discounts: &[u64],
    flows: &[u64],
    kind: u64,
    expiry: usize,
    strike: u64,
) -> BondAndOption
    ensures { result ≡ bond_and_option steps reversion discounts.now flows.now kind expiry strike }
{
    pricing::bond_and_option(steps, reversion, discounts, flows, kind, expiry, strike)
}

#[unsafe(no_mangle)]
pub extern "C" fn mixegorta_dated_option_price(
    steps: usize,
    reversion: u64,
    discounts: &[u64],
    flows: &[u64],
    side: u64,
    dates: &[u8],
    strike: u64,
) -> Price
    ensures { result ≡ dated_price steps reversion discounts.now flows.now side dates.now strike }
{
    pricing::dated_option_price(steps, reversion, discounts, flows, side, dates, strike)
}

#[unsafe(no_mangle)]
pub extern "C" fn mixegorta_bond_and_dated_option(
    steps: usize,
    reversion: u64,
    discounts: &[u64],
    flows: &[u64],
    side: u64,
    dates: &[u8],
    strike: u64,
) -> BondAndOption
    ensures { result ≡ bond_and_dated_option steps reversion discounts.now flows.now side dates.now strike }
{
    pricing::bond_and_dated_option(steps, reversion, discounts, flows, side, dates, strike)
}

#[unsafe(no_mangle)]
pub extern "C" fn mixegorta_option_strip(
    steps: usize,
    reversion: u64,
    discounts: &[u64],
    flows: &[u64],
    side: u64,
    dates: &[u8],
    strikes: &[u64],
) -> Strip
    ensures { result ≡ option_strip steps reversion discounts.now flows.now side dates.now strikes.now }
{
    pricing::option_strip(steps, reversion, discounts, flows, side, dates, strikes)
}

#[unsafe(no_mangle)]
pub extern "C" fn mixegorta_option_strip_of_kind(
    steps: usize,
    reversion: u64,
    discounts: &[u64],
    flows: &[u64],
    kind: u64,
    expiry: usize,
    strikes: &[u64],
) -> Strip
    ensures { result ≡ kind_strip steps reversion discounts.now flows.now kind expiry strikes.now }
{
    pricing::option_strip_of_kind(steps, reversion, discounts, flows, kind, expiry, strikes)
}

#[unsafe(no_mangle)]
pub extern "C" fn mixegorta_value_by_state_prices(state_prices: &[u64], payoffs: &[u64]) -> Answer
    ensures { result ≡ value_by_state_prices_answer state_prices.now payoffs.now }
{
    Answer::from(valuation::value_by_state_prices(state_prices, payoffs))
}

#[unsafe(no_mangle)]
pub extern "C" fn mixegorta_valuation_error_bound(
    steps: usize,
    reversion: u64,
    discounts: &[u64],
    row: usize,
    payoffs: &[u64],
) -> Answer
    ensures { result ≡ valuation_error_bound_answer steps reversion discounts.now row payoffs.now }
{
    Answer::from(valuation::valuation_error_bound(steps, reversion, discounts, row, payoffs))
}

// ---- a whole job

// The sheet stands at the end of `out`, which has at least 468,736 bytes.
#[unsafe(no_mangle)]
pub extern "C" fn mixegorta_sheet(job: &[u8], out: &mut [u8]) -> Written
    ensures answer { result ≡ answer_of (sheet_number job.now (length out.old)) (sheet_text job.now) }
    ensures memory { out.new ≡ sheet_memory job.now out.old }
{
    Written::from(job_sheet::sheet(job, out))
}

// The tree of the job stands at the start of both memories where nothing is refused.
#[unsafe(no_mangle)]
pub extern "C" fn mixegorta_prices_of_job(
    job: &[u8],
    discounts: &mut [u64],
    state_prices: &mut [u64],
) -> JobPrices
    ensures answer { result ≡ bytes_prices job.now (length discounts.old) (length state_prices.old) }
    ensures discounted { discounts.new ≡ memory_after
        (bytes_number job.now (length discounts.old) (length state_prices.old))
        (job_discounts (reading_of job.now).job) discounts.old }
    ensures priced { state_prices.new ≡ memory_after
        (bytes_number job.now (length discounts.old) (length state_prices.old))
        (job_state_prices (reading_of job.now).job) state_prices.old }
{
    job_prices::prices_of_job(job, discounts, state_prices)
}

// ---- a job as a record

#[unsafe(no_mangle)]
pub extern "C" fn mixegorta_read_job(bytes: &[u8]) -> Reading
    ensures reading { result ≡ reading_of bytes.now }
    ensures grammar { ReadsAs bytes.now result }
{
    job_reader::read(bytes)
}

#[unsafe(no_mangle)]
pub extern "C" fn mixegorta_write_job(job: Job, out: &mut [u8]) -> Answer
    ensures answer { result ≡ written job (length out.old) }
    ensures memory { out.new ≡ written_memory job out.old }
{
    job_writer::write(job, out)
}

// ---- a book of jobs

// The lines stand at the end of `out`, which has at least 2,304 bytes.
#[unsafe(no_mangle)]
pub extern "C" fn mixegorta_book_report(file: &[u8], out: &mut [u8]) -> BookText
    ensures answer { result ≡ lines_answer (book_lines (file_book file.now)) (length out.old) }
    ensures memory { out.new ≡ lines_memory (book_lines (file_book file.now)) out.old }
{
    BookText::from(book_report::report(file, out))
}

// ---- reports of books that add up

#[unsafe(no_mangle)]
pub extern "C" fn mixegorta_empty_report() -> Report
    ensures { result ≡ empty_report }
{
    book_reports::empty()
}

#[unsafe(no_mangle)]
pub extern "C" fn mixegorta_report_of_file(file: &[u8]) -> Report
    ensures { result ≡ file_report file.now }
{
    book_reports::of_file(file)
}

#[unsafe(no_mangle)]
pub extern "C" fn mixegorta_joined_reports(first: Report, second: Report) -> Joined
    ensures { result ≡ joined_report first second }
{
    Joined::from(book_reports::joined(first, second))
}

// ---- a shelf of trees

#[unsafe(no_mangle)]
pub extern "C" fn mixegorta_empty_shelf() -> Shelf
    ensures { result.slots ≡ empty_slots }
{
    shelf::empty_shelf()
}

#[unsafe(no_mangle)]
pub extern "C" fn mixegorta_shelf_part(shelf: Shelf, name: usize) -> Part
    ensures { result ≡ part_of shelf.slots name }
{
    shelf::part_of(shelf, name)
}

#[unsafe(no_mangle)]
pub extern "C" fn mixegorta_shelf_ask(
    shelf: Shelf,
    memory: &mut [u64; shelf_laws::ROOM],
    name: usize,
    steps: usize,
    reversion: u64,
) -> Shelved
    ensures number { result.number ≡ ask_number shelf.slots name steps reversion }
    ensures slots { result.shelf.slots ≡ ask_slots shelf.slots name steps reversion }
    ensures memory { memory.new ≡ ask_memory shelf.slots memory.old name steps reversion }
{
    shelf::ask(shelf, memory, name, steps, reversion)
}

#[unsafe(no_mangle)]
pub extern "C" fn mixegorta_shelf_commit(
    shelf: Shelf,
    memory: &mut [u64; shelf_laws::ROOM],
    name: usize,
    frequency: u64,
    volatility: u64,
    rows: &[u64],
    kinds: &[u8],
    figures: &[f64],
) -> Shelved
    ensures number { result.number ≡ commit_number shelf.slots name frequency volatility
        rows.now kinds.now figures.now }
    ensures slots { result.shelf.slots ≡ commit_slots shelf.slots memory.old name frequency volatility
        rows.now kinds.now figures.now }
    ensures memory { memory.new ≡ commit_memory shelf.slots memory.old name frequency volatility
        rows.now kinds.now figures.now }
{
    shelf::commit(
        shelf, memory, name, frequency, volatility, rows, kinds, figures,
    )
}

#[unsafe(no_mangle)]
pub extern "C" fn mixegorta_shelf_release(
    shelf: Shelf,
    memory: &mut [u64; shelf_laws::ROOM],
    name: usize,
) -> Shelved
    ensures number { result.number ≡ name_cause shelf.slots name }
    ensures slots { result.shelf.slots ≡ release_slots shelf.slots name }
    ensures memory { memory.new ≡ release_memory shelf.slots memory.old name }
{
    shelf::release(shelf, memory, name)
}

#[unsafe(no_mangle)]
pub extern "C" fn mixegorta_shelf_bond_price(
    shelf: Shelf,
    memory: &[u64; shelf_laws::ROOM],
    name: usize,
    flows: &[u64],
) -> Price
    ensures { result ≡ shelf_bond shelf.slots memory.now name flows.now }
{
    shelf_prices::bond_price(shelf, memory, name, flows)
}

#[unsafe(no_mangle)]
pub extern "C" fn mixegorta_shelf_option_price(
    shelf: Shelf,
    memory: &[u64; shelf_laws::ROOM],
    name: usize,
    flows: &[u64],
    kind: u64,
    expiry: usize,
    strike: u64,
) -> Price
    ensures { result ≡ shelf_option shelf.slots memory.now name flows.now kind expiry strike }
{
    shelf_prices::option_price(shelf, memory, name, flows, kind, expiry, strike)
}

#[unsafe(no_mangle)]
pub extern "C" fn mixegorta_shelf_bond_and_option(
    shelf: Shelf,
    memory: &[u64; shelf_laws::ROOM],
    name: usize,
    flows: &[u64],
    kind: u64,
    expiry: usize,
    strike: u64,
) -> BondAndOption
    ensures { result ≡ shelf_bond_and_option shelf.slots memory.now name flows.now kind expiry strike }
{
    shelf_prices::bond_and_option(shelf, memory, name, flows, kind, expiry, strike)
}

#[unsafe(no_mangle)]
pub extern "C" fn mixegorta_shelf_dated_option_price(
    shelf: Shelf,
    memory: &[u64; shelf_laws::ROOM],
    name: usize,
    flows: &[u64],
    side: u64,
    dates: &[u8],
    strike: u64,
) -> Price
    ensures { result ≡ shelf_dated shelf.slots memory.now name flows.now side dates.now strike }
{
    shelf_prices::dated_option_price(shelf, memory, name, flows, side, dates, strike)
}

#[unsafe(no_mangle)]
pub extern "C" fn mixegorta_shelf_bond_and_dated_option(
    shelf: Shelf,
    memory: &[u64; shelf_laws::ROOM],
    name: usize,
    flows: &[u64],
    side: u64,
    dates: &[u8],
    strike: u64,
) -> BondAndOption
    ensures { result ≡ shelf_bond_and_dated shelf.slots memory.now name flows.now side dates.now strike }
{
    shelf_prices::bond_and_dated_option(shelf, memory, name, flows, side, dates, strike)
}

#[unsafe(no_mangle)]
pub extern "C" fn mixegorta_shelf_option_strip(
    shelf: Shelf,
    memory: &[u64; shelf_laws::ROOM],
    name: usize,
    flows: &[u64],
    side: u64,
    dates: &[u8],
    strikes: &[u64],
) -> Strip
    ensures { result ≡ shelf_dated_strip shelf.slots memory.now name flows.now side dates.now strikes.now }
{
    shelf_prices::option_strip(shelf, memory, name, flows, side, dates, strikes)
}

#[unsafe(no_mangle)]
pub extern "C" fn mixegorta_shelf_option_strip_of_kind(
    shelf: Shelf,
    memory: &[u64; shelf_laws::ROOM],
    name: usize,
    flows: &[u64],
    kind: u64,
    expiry: usize,
    strikes: &[u64],
) -> Strip
    ensures { result ≡ shelf_kind_strip shelf.slots memory.now name flows.now kind expiry strikes.now }
{
    shelf_prices::option_strip_of_kind(shelf, memory, name, flows, kind, expiry, strikes)
}

// ---- haircut bands

#[unsafe(no_mangle)]
pub extern "C" fn mixegorta_check_bands(
    first_rows: &[u64],
    last_rows: &[u64],
    lowest_prices: &[u64],
    highest_prices: &[u64],
    haircuts: &[u64],
) -> Verdict
    ensures { result ≡ verdict first_rows.now last_rows.now lowest_prices.now
        highest_prices.now haircuts.now }
{
    Verdict::from(bands::check_bands(
        first_rows,
        last_rows,
        lowest_prices,
        highest_prices,
        haircuts,
    ))
}

#[unsafe(no_mangle)]
pub extern "C" fn mixegorta_lending_worth(
    first_rows: &[u64],
    last_rows: &[u64],
    lowest_prices: &[u64],
    highest_prices: &[u64],
    haircuts: &[u64],
    row: u64,
    price: u64,
) -> Worth
    ensures { result ≡ lending_worth first_rows.now last_rows.now lowest_prices.now
        highest_prices.now haircuts.now row price }
{
    Worth::from(lending::lending_worth(
        first_rows,
        last_rows,
        lowest_prices,
        highest_prices,
        haircuts,
        row,
        price,
    ))
}

// ---- a rate tree and a spread tree together

#[unsafe(no_mangle)]
pub extern "C" fn mixegorta_pair_bond_price(
    rate_steps: usize,
    rate_reversion: u64,
    rate_discounts: &[u64],
    spread_steps: usize,
    spread_reversion: u64,
    spread_discounts: &[u64],
    flows: &[u64],
) -> Price
    ensures { result ≡ pair_bond_price rate_steps rate_reversion rate_discounts.now spread_steps spread_reversion
        spread_discounts.now flows.now }
{
    pair_pricing::pair_bond_price(
        rate_steps,
        rate_reversion,
        rate_discounts,
        spread_steps,
        spread_reversion,
        spread_discounts,
        flows,
    )
}

#[unsafe(no_mangle)]
pub extern "C" fn mixegorta_pair_dated_option_price(
    rate_steps: usize,
    rate_reversion: u64,
    rate_discounts: &[u64],
    spread_steps: usize,
    spread_reversion: u64,
    spread_discounts: &[u64],
    flows: &[u64],
    side: u64,
    dates: &[u8],
    strike: u64,
) -> Price
    ensures { result ≡ pair_dated_price rate_steps rate_reversion rate_discounts.now spread_steps spread_reversion
        spread_discounts.now flows.now side dates.now strike }
{
    pair_pricing::pair_dated_option_price(
        rate_steps,
        rate_reversion,
        rate_discounts,
        spread_steps,
        spread_reversion,
        spread_discounts,
        flows,
        side,
        dates,
        strike,
    )
}
