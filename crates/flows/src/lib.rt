// Flows that an end announces when it is opened (document 02, No. 7), in 32 bytes: one flow more, and all.
#![tactic(auto)]

ghost use Rattle.std.specs.Prelude.{◌≡◌};
ghost use Rattle.flows.specs.Promises.{Announces, AnnouncesAll};

// Announces a flow; every other is announced or not as before.
pub fn announce(flows: &mut [u8; 32], flow: u8)
    ensures { Announces flow flows.old flows.new }
{
    flows[flow as usize / 8] |= 1 << (flow % 8);
}

// Announces every flow.
pub fn announce_all(flows: &mut [u8; 32])
    ensures { AnnouncesAll flows.new }
{
    *flows = all();
}

// Every flow announced.
pub fn all() -> [u8; 32]
    ensures { AnnouncesAll result }
{
    [255; 32]
}
