// Every call of a bearer in every kind of state, over both bearers: what is answered, and whether all is as it was.
#![tactic(auto)]

mod call;
mod look;
mod state;
mod table;

use direct::DirectLine;
use gateway::row::Row;
use std::io;
use table::table;

fn main(rt: HostRuntime) -> io::Result<()> {
    table::<DirectLine>(&rt, "direct")?;
    table::<Row>(&rt, "gateway")
}
