use crate::call::Call;
use bearer::side::{Highest, Side};
use lines::line::Line;
use lines::state::Carrier;

// A state of a bearer: the number of the latest dialogue with which it is made, and the calls that bring it there.
#[derive(Clone, Copy)]
pub(crate) struct State {
    pub(crate) name: &'static str,
    latest: u32,
    calls: &'static [Call],
}

const OPENS: Call = Call::Open(Side::Mobile, b"138", &[6]);

const GIVES: Call = Call::Give(Side::Network, &[10, 3]);

pub(crate) const STATES: [State; 8] = [
    State {
        name: "closed",
        latest: 7,
        calls: &[],
    },
    State {
        name: "closed at the last number",
        latest: u32::MAX,
        calls: &[],
    },
    State {
        name: "under way to network",
        latest: 7,
        calls: &[OPENS],
    },
    State {
        name: "turn with network",
        latest: 7,
        calls: &[OPENS, Call::Take(Side::Network)],
    },
    State {
        name: "under way to mobile",
        latest: 7,
        calls: &[OPENS, Call::Take(Side::Network), GIVES],
    },
    State {
        name: "turn with mobile",
        latest: 7,
        calls: &[
            OPENS,
            Call::Take(Side::Network),
            GIVES,
            Call::Take(Side::Mobile),
        ],
    },
    State {
        name: "garbled to network",
        latest: 7,
        calls: &[Call::Load(Side::Mobile, b"?")],
    },
    State {
        name: "lost",
        latest: 7,
        calls: &[OPENS, Call::Lose],
    },
];

impl State {
    // A new bearer, brought into the state.
    pub(crate) fn bearer<L: Line + Default>(self) -> Carrier<L> {
        let mut b = Carrier::closed(self.latest, Highest::Seven);
        for call in self.calls {
            let _ = call.make(&mut b, &mut [0; 160]);
        }
        b
    }
}
