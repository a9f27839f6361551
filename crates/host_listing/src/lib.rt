// `list` and `relist` as a host calls them: the number is returned, and the counts are told in places that the host lends.
#![tactic(auto)]

ghost use Rattle.host_listing.specs.Exports.{ListReturned, ListExported, RelistExported};

use listing::{COUNTS, Ones};
use refusals::Numbered;

// Returns the answer's number, and sets the places to the counts where there are any.
fn tell<R: Numbered>(
    listed: Result<Ones, R>,
    defined: &mut [u32; COUNTS],
    used: &mut [u32; COUNTS],
) -> u8
    ensures { ListReturned R.number listed result (record { defined = defined.old; used = used.old }) (record { defined = defined.new; used = used.new }) }
{
    match listed {
        Err(refusal) => refusal.number(),
        Ok(ones) => {
            let writers = ones.defined;
            *defined = writers;
            let readers = ones.used;
            *used = readers;
            0
        }
    }
}

pub fn list(
    program: &[u8],
    list: &mut [u64],
    defined: &mut [u32; COUNTS],
    used: &mut [u32; COUNTS],
) -> u8
    ensures { ListExported program.now list.old list.new result (record { defined = defined.old; used = used.old }) (record { defined = defined.new; used = used.new }) }
{
    let listed = list::list(program, list);
    tell(listed, defined, used)
}

pub fn relist(
    program: &[u8],
    marks: &[u8],
    list: &mut [u64],
    defined: &mut [u32; COUNTS],
    used: &mut [u32; COUNTS],
) -> u8
    ensures { RelistExported program.now marks.now list.old list.new result (record { defined = defined.old; used = used.old }) (record { defined = defined.new; used = used.new }) }
{
    let relisted = relist::relist(program, marks, list);
    tell(relisted, defined, used)
}
