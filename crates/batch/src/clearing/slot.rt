//! One slot of a clearing batch.
ghost use Rattle.batch.specs.Calls.{RunsOn, Slotted};

use super::Clearing;
use crossbar::setting::Setting;
use policy::Policy;
use reply::Reply;
use reply::place::Place;
use reply::reason::Reason;
use reply::refusal::Refusal;

impl Clearing {
    /// Serves one slot by the policy's setting, which is written to `place`: done with the number of packets that left.
    ///
    /// Refused where no slot is left; the batch, the policy and the place then stay as they were. However the policies
    /// change from slot to slot, the packets of a batch have left after exactly as many slots as its largest load.
    // By the rules a slot writes its setting to a place that the caller gives, and every call answers a reply.
    pub fn slot<P: Policy>(&mut self, policy: &mut P, place: &mut Setting) -> Reply
        ensures slot { Slotted P.Policy.given self.old policy.old place.old result self.new policy.new place.new }
        ensures run { RunsOn self.old place.new self.new }
    {
        if self.left == 0 {
            return Err(Refusal::from(Reason::NoSlotsLeft));
        }
        let setting = policy.choose(&self.demand);
        let departed = self.demand.serve(&setting);
        self.left -= 1;
        *place = setting;
        Ok(Place::from(u16::from(departed)))
    }
}
