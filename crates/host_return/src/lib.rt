// `go_back` for a host: the answer goes into the place that it lends, and the number is 0 or the refusal's.
#![tactic(auto)]

ghost use Rattle.host_return.specs.Places.{ReturnExported};

use refusals::Numbered;

pub fn export(stages: &[u8], name: &[u8], text: &mut [u8], bytes: &mut u32) -> u8
    ensures { ReturnExported stages.now name.now text.old text.new result bytes.old bytes.new }
{
    match go_back::go_back(stages, name, text) {
        Ok(b) => {
            *bytes = b;
            0
        }
        Err(refusal) => refusal.number(),
    }
}
