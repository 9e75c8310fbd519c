// A planning terminal with four guests: a customer taps 'order' twice, without and with one-shot mode at the orders guest.
#![tactic(auto)]

mod guest;
mod log;
mod print;
mod story;
mod terminal;

use terminal::Terminal;

// The second run sets up anew the hub that the first one leaves.
fn main(rt: HostRuntime) {
    let mut terminal = Terminal::new(&rt);
    story::first(&mut terminal);
    story::second(&mut terminal);
}
