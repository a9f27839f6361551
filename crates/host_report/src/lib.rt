// `report` for a host: the answer goes into the places that it lends, and the number is 0 or the refusal's.
#![tactic(auto)]

ghost use Rattle.std.specs.Prelude.{◌≡◌, ◌≤◌, length};
ghost use Rattle.program.specs.Program.{most};
ghost use Rattle.host_report.specs.Places.{begun, ReportExported};

use pricing::KINDS;
use program::MOST;
use refusals::Numbered;

// The first n entries are copied, and the others are kept.
fn copy(from: &[u32; MOST], n: usize, out: &mut [u32; MOST])
    requires { (n ≤ most) × (length from.now ≡ most) }
    ensures { out.new ≡ begun n from.now out.old }
{
    let mut i: usize = 0;
    while i < n {
        out[i] = from[i];
        i += 1;
    }
}

pub fn export(
    program: &[u8],
    marks: &[u8],
    prices: &[u32; KINDS],
    before: &mut [u32; MOST],
    after: &mut [u32; MOST],
    statements: &mut u32,
    given: &mut u32,
    rewritten: &mut u32,
    saved: &mut i32,
) -> u8
    ensures { ReportExported prices.now program.now marks.now result (record { before = before.old; after = after.old; statements = statements.old; given = given.old; rewritten = rewritten.old; saved = saved.old }) (record { before = before.new; after = after.new; statements = statements.new; given = given.new; rewritten = rewritten.new; saved = saved.new }) }
{
    match priced::report(program, marks, *prices) {
        Err(refusal) => refusal.number(),
        Ok(list) => {
            let size = list.count as usize;
            let cost = list.given;
            copy(&list.before, size, before);
            copy(&list.after, size, after);
            *statements = list.count;
            *given = cost;
            *rewritten = list.rewritten;
            *saved = list.saved;
            0
        }
    }
}
