// `keep` for a host: the answer goes into the place that it lends, and the number is 0 or the refusal's.
#![tactic(auto)]

ghost use Rattle.host_keep.specs.Places.{KeepExported};

use refusals::Numbered;

pub fn export(stages: &mut [u8], name: &[u8], program: &[u8], place: &mut u32) -> u8
    ensures { KeepExported stages.old name.now program.now stages.new result place.old place.new }
{
    match keep::keep(stages, name, program) {
        Ok(k) => {
            *place = k;
            0
        }
        Err(refusal) => refusal.number(),
    }
}
