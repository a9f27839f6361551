// The calls for C and Rust hosts: include/rewrites.h declares them. What each answers stands in the crate that it calls.
#![tactic(auto)]

ghost use Rattle.std.specs.Prelude.{◌≡◌};
ghost use Rattle.pricing.specs.Prices.{ours};
ghost use Rattle.host_run.specs.Places.{RunExported};
ghost use Rattle.host_tabulate.specs.Places.{TabulateExported};
ghost use Rattle.host_force.specs.Exports.{ForceExported};
ghost use Rattle.host_judge.specs.Places.{JudgeExported};
ghost use Rattle.host_why.specs.Places.{WhyExported};
ghost use Rattle.host_review.specs.Places.{ReviewExported};
ghost use Rattle.host_mark_line.specs.Places.{MarkLineExported};
ghost use Rattle.host_join.specs.Places.{JoinExported};
ghost use Rattle.host_prices.specs.Places.{PricesExported};
ghost use Rattle.host_report.specs.Places.{ReportExported};
ghost use Rattle.host_listing.specs.Exports.{ListExported, RelistExported};
ghost use Rattle.host_keep.specs.Places.{KeepExported};
ghost use Rattle.host_return.specs.Places.{ReturnExported};
ghost use Rattle.host_witness.specs.Places.{WitnessExported};
ghost use Rattle.blame.specs.Blame.{TextBlamed};
ghost use Rattle.mark_blame.specs.Blame.{LineTold};
ghost use Rattle.condition_blame.specs.Blame.{Blamed};

use language::KEPT;
use listing::COUNTS;
use machine::VALUES;
use pricing::KINDS;
use program::MOST;
use sharing::MOST_LINES;

#[unsafe(no_mangle)]
pub extern "C" fn rewrites_run(
    program: &[u8],
    values: &[u32; VALUES],
    input: u32,
    budget: u32,
    prices: &[u32; KINDS],
    ended: &mut u32,
    value: &mut i32,
    steps: &mut u32,
    statement: &mut u32,
    left: &mut [u32; VALUES],
    kept: &mut [u32; KEPT],
    ticks: &mut u64,
) -> u8
    ensures { RunExported prices.now program.now values.now input budget result (record { ended = ended.old; value = value.old; steps = steps.old; statement = statement.old; left = left.old; kept = kept.old; ticks = ticks.old }) (record { ended = ended.new; value = value.new; steps = steps.new; statement = statement.new; left = left.new; kept = kept.new; ticks = ticks.new }) }
{
    host_run::export(
        program, values, input, budget, prices, ended, value, steps, statement, left, kept, ticks,
    )
}

#[unsafe(no_mangle)]
pub extern "C" fn rewrites_tabulate(
    program: &[u8],
    condition: &[u8],
    table: &mut [u64],
    parts: &mut u32,
    satisfied: &mut u32,
    first: &mut u32,
) -> u8
    ensures { TabulateExported program.now condition.now table.old table.new result (record { parts = parts.old; satisfied = satisfied.old; first = first.old }) (record { parts = parts.new; satisfied = satisfied.new; first = first.new }) }
{
    host_tabulate::export(program, condition, table, parts, satisfied, first)
}

#[unsafe(no_mangle)]
pub extern "C" fn rewrites_force(
    program: &[u8],
    driver: &[u8],
    condition: &[u8],
    table: &mut [u64],
    parts: &mut u32,
    satisfied: &mut u32,
    first: &mut u32,
    number: &mut [u32; MOST],
    arm: &mut [u8; MOST],
) -> u8
    ensures { ForceExported program.now driver.now condition.now table.old table.new result (record { numbers = number.old; arms = arm.old }) (record { numbers = number.new; arms = arm.new }) (record { parts = parts.old; satisfied = satisfied.old; first = first.old }) (record { parts = parts.new; satisfied = satisfied.new; first = first.new }) }
{
    host_force::force(
        program, driver, condition, table, parts, satisfied, first, number, arm,
    )
}

#[unsafe(no_mangle)]
pub extern "C" fn rewrites_judge(
    program: &[u8],
    marks: &[u8],
    verdicts: &mut [u8],
    text: &mut [u8],
    count: &mut u32,
    accepted: &mut u32,
    bytes: &mut u32,
) -> u8
    ensures { JudgeExported program.now marks.now (record { verdicts = verdicts.old; new = text.old }) (record { verdicts = verdicts.new; new = text.new }) result (record { marks = count.old; accepted = accepted.old; bytes = bytes.old }) (record { marks = count.new; accepted = accepted.new; bytes = bytes.new }) }
{
    host_judge::export(program, marks, verdicts, text, count, accepted, bytes)
}

#[unsafe(no_mangle)]
pub extern "C" fn rewrites_review(
    program: &[u8],
    conditions: &[u8],
    table: &mut [u64],
    tables: &mut u32,
    lines: &mut u32,
    numbers: &mut [u32; MOST_LINES],
    parts: &mut [u32; MOST_LINES],
    satisfied: &mut [u32; MOST_LINES],
    first: &mut [u32; MOST_LINES],
) -> u8
    ensures { ReviewExported program.now conditions.now table.old table.new result (record { tables = tables.old; lines = lines.old; told = record { tables = numbers.old; parts = parts.old; satisfied = satisfied.old; first = first.old } }) (record { tables = tables.new; lines = lines.new; told = record { tables = numbers.new; parts = parts.new; satisfied = satisfied.new; first = first.new } }) }
{
    host_review::export(
        program, conditions, table, tables, lines, numbers, parts, satisfied, first,
    )
}

#[unsafe(no_mangle)]
pub extern "C" fn rewrites_report(
    program: &[u8],
    marks: &[u8],
    prices: &[u32; KINDS],
    before: &mut [u32; MOST],
    after: &mut [u32; MOST],
    statements: &mut u32,
    given: &mut u32,
    rewritten: &mut u32,
    saved: &mut i32,
) -> u8
    ensures { ReportExported prices.now program.now marks.now result (record { before = before.old; after = after.old; statements = statements.old; given = given.old; rewritten = rewritten.old; saved = saved.old }) (record { before = before.new; after = after.new; statements = statements.new; given = given.new; rewritten = rewritten.new; saved = saved.new }) }
{
    host_report::export(
        program, marks, prices, before, after, statements, given, rewritten, saved,
    )
}

#[unsafe(no_mangle)]
pub extern "C" fn rewrites_prices(text: &[u8], prices: &mut [u32; KINDS]) -> u8
    ensures { PricesExported text.now result prices.old prices.new }
{
    host_prices::export(text, prices)
}

#[unsafe(no_mangle)]
pub extern "C" fn rewrites_our_prices(prices: &mut [u32; KINDS])
    ensures { prices.new ≡ ours }
{
    host_prices::ours(prices)
}

#[unsafe(no_mangle)]
pub extern "C" fn rewrites_mark_line(
    marks: &[u8],
    line: u32,
    begin: &mut usize,
    end: &mut usize,
) -> u8
    ensures { MarkLineExported marks.now line result (record { begin = begin.old; end = end.old }) (record { begin = begin.new; end = end.new }) }
{
    host_mark_line::export(marks, line, begin, end)
}

#[unsafe(no_mangle)]
pub extern "C" fn rewrites_list(
    program: &[u8],
    list: &mut [u64],
    defined: &mut [u32; COUNTS],
    used: &mut [u32; COUNTS],
) -> u8
    ensures { ListExported program.now list.old list.new result (record { defined = defined.old; used = used.old }) (record { defined = defined.new; used = used.new }) }
{
    host_listing::list(program, list, defined, used)
}

#[unsafe(no_mangle)]
pub extern "C" fn rewrites_relist(
    program: &[u8],
    marks: &[u8],
    list: &mut [u64],
    defined: &mut [u32; COUNTS],
    used: &mut [u32; COUNTS],
) -> u8
    ensures { RelistExported program.now marks.now list.old list.new result (record { defined = defined.old; used = used.old }) (record { defined = defined.new; used = used.new }) }
{
    host_listing::relist(program, marks, list, defined, used)
}

#[unsafe(no_mangle)]
pub extern "C" fn rewrites_join(
    road: &[u8],
    creeper: &[u8],
    text: &mut [u8],
    statements: &mut u32,
    bytes: &mut u32,
) -> u8
    ensures { JoinExported road.now creeper.now text.old text.new result (record { statements = statements.old; bytes = bytes.old }) (record { statements = statements.new; bytes = bytes.new }) }
{
    host_join::export(road, creeper, text, statements, bytes)
}

#[unsafe(no_mangle)]
pub extern "C" fn rewrites_keep(
    stages: &mut [u8],
    name: &[u8],
    program: &[u8],
    place: &mut u32,
) -> u8
    ensures { KeepExported stages.old name.now program.now stages.new result place.old place.new }
{
    host_keep::export(stages, name, program, place)
}

#[unsafe(no_mangle)]
pub extern "C" fn rewrites_return(
    stages: &[u8],
    name: &[u8],
    text: &mut [u8],
    bytes: &mut u32,
) -> u8
    ensures { ReturnExported stages.now name.now text.old text.new result bytes.old bytes.new }
{
    host_return::export(stages, name, text, bytes)
}

#[unsafe(no_mangle)]
pub extern "C" fn rewrites_witness(
    program: &[u8],
    condition: &[u8],
    part: u32,
    statement: u32,
    path: &mut [u32],
    length: &mut u32,
    turn: &mut u32,
    truth: &mut u32,
) -> u8
    ensures { WitnessExported program.now condition.now part statement path.old path.new result (record { length = length.old; turn = turn.old; truth = truth.old }) (record { length = length.new; turn = turn.new; truth = truth.new }) }
{
    host_witness::export(
        program, condition, part, statement, path, length, turn, truth,
    )
}

#[unsafe(no_mangle)]
pub extern "C" fn rewrites_blame_program(program: &[u8]) -> u32
    ensures { TextBlamed program.now result }
{
    blame::blame(program)
}

#[unsafe(no_mangle)]
pub extern "C" fn rewrites_blame_marks(marks: &[u8]) -> u32
    ensures { LineTold marks.now result }
{
    mark_blame::line_of(marks)
}

#[unsafe(no_mangle)]
pub extern "C" fn rewrites_blame_condition(condition: &[u8]) -> u32
    ensures { Blamed condition.now result }
{
    condition_blame::byte_of(condition)
}

// The header's REWRITES_VERSION: 10,000 for each major version, 100 for each minor one, and 1 for each patch.
const VERSION: u32 = 100;

#[unsafe(no_mangle)]
pub extern "C" fn rewrites_version() -> u32
    ensures { result ≡ 100 }
{
    VERSION
}

#[unsafe(no_mangle)]
pub extern "C" fn rewrites_why(
    program: &[u8],
    marks: &[u8],
    line: u32,
    path: &mut [u32],
    verdict: &mut u32,
    length: &mut u32,
    culprit: &mut u32,
) -> u8
    ensures { WhyExported program.now marks.now line path.old path.new result (record { verdict = verdict.old; length = length.old; culprit = culprit.old }) (record { verdict = verdict.new; length = length.new; culprit = culprit.new }) }
{
    host_why::export(program, marks, line, path, verdict, length, culprit)
}
