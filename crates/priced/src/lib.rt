// A call: what each statement of a program costs before and after a list of marks, and in all. It takes any bytes, and has no `requires`.
#![tactic(auto)]

ghost use Rattle.priced.specs.Priced.{ReportAnswers};

use calls::Refusal;
use price_list::PriceList;
use pricing::KINDS;

// Judges each mark of the list on the program, and lists what the program and the one with the accepted marks made cost, by the prices in force under the
// table.
pub fn report(
    program: &[u8],
    marks: &[u8],
    prices: [u32; KINDS],
) -> Result<PriceList, Refusal<marks::Refusal>>
    ensures { ReportAnswers prices program.now marks.now result }
{
    let mut verdicts = judge::verdict_buffer();
    let mut text = judge::text_buffer();
    let judged = judge::judge(program, marks, &mut verdicts, &mut text)?;
    let end = judged.bytes as usize;
    let table = pricing::in_force(prices);
    Ok(price_list::list(program, &text[..end], &table))
}
