// `mark_line` for a host: the answer goes into the places that it lends, and the number is 0 or the refusal's.
#![tactic(auto)]

ghost use Rattle.host_mark_line.specs.Places.{MarkLineExported};

use refusals::Numbered;

pub fn export(marks: &[u8], line: u32, begin: &mut usize, end: &mut usize) -> u8
    ensures { MarkLineExported marks.now line result (record { begin = begin.old; end = end.old }) (record { begin = begin.new; end = end.new }) }
{
    match mark_line::mark_line(marks, line) {
        Ok((b, e)) => {
            *begin = b;
            *end = e;
            0
        }
        Err(refusal) => refusal.number(),
    }
}
