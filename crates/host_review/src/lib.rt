// `review` for a host: the answer goes into the places that it lends, and the number is 0 or the refusal's.
#![tactic(auto)]

ghost use Rattle.std.specs.Prelude.{◌≡◌, ◌≤◌, length};
ghost use Rattle.sharing.specs.Sharing.{most_lines};
ghost use Rattle.host_review.specs.Places.{begun, ReviewExported};

use refusals::Numbered;
use sharing::MOST_LINES;

// The first n entries are copied, and the others are kept.
fn copy(from: &[u32; MOST_LINES], n: usize, out: &mut [u32; MOST_LINES])
    requires { (n ≤ most_lines) × (length from.now ≡ most_lines) }
    ensures { out.new ≡ begun n from.now out.old }
{
    let mut i: usize = 0;
    while i < n {
        out[i] = from[i];
        i += 1;
    }
}

pub fn export(
    program: &[u8],
    conditions: &[u8],
    table: &mut [u64],
    tables: &mut u32,
    lines: &mut u32,
    numbers: &mut [u32; MOST_LINES],
    parts: &mut [u32; MOST_LINES],
    satisfied: &mut [u32; MOST_LINES],
    first: &mut [u32; MOST_LINES],
) -> u8
    ensures { ReviewExported program.now conditions.now table.old table.new result (record { tables = tables.old; lines = lines.old; told = record { tables = numbers.old; parts = parts.old; satisfied = satisfied.old; first = first.old } }) (record { tables = tables.new; lines = lines.new; told = record { tables = numbers.new; parts = parts.new; satisfied = satisfied.new; first = first.new } }) }
{
    match review::review(program, conditions, table) {
        Err(refusal) => refusal.number(),
        Ok(reviewed) => {
            let size = reviewed.lines as usize;
            copy(&reviewed.table_of, size, numbers);
            copy(&reviewed.parts, size, parts);
            copy(&reviewed.satisfied, size, satisfied);
            copy(&reviewed.first, size, first);
            *tables = reviewed.tables;
            *lines = reviewed.lines;
            0
        }
    }
}
