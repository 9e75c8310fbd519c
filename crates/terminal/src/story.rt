// The two runs: a double tap without one-shot mode, then with it.
use super::guest::Guest;
use super::terminal::Terminal;

// Offsets in the shared region.
const ORDERS_STATE: u64 = 8;

const COMMON: u64 = 4096;

const TOUCH_OUTPUT: u64 = 8192;

const PLANNER_OUTPUT: u64 = 12288;

// The lengths of two pieces; one slab is to have both.
const BASKET: [u8; 2] = [12, 6];

impl<R: Print> Terminal<'_, R> {
    // Four guests, with one-shot mode at orders on or off.
    fn prepare(&mut self, one_shot: bool) {
        self.set_up();
        for guest in Guest::ALL {
            self.join(guest);
        }
        self.one_shot(Guest::Orders, one_shot);
    }

    fn basket(&mut self) {
        self.store(
            Guest::Touch,
            "store basket in its output section",
            TOUCH_OUTPUT,
            &BASKET,
        );
    }

    // The planner adds the lengths up.
    fn plan(&mut self) {
        let mut pieces = [0; 2];
        self.load(Guest::Planner, "load basket", TOUCH_OUTPUT, &mut pieces);
        let [a, b] = pieces;
        self.store(
            Guest::Planner,
            "store length in its output section",
            PLANNER_OUTPUT,
            &[a.wrapping_add(b)],
        );
    }

    // The orders guest takes the length, and cuts.
    fn order(&mut self) {
        self.load(Guest::Orders, "load length", PLANNER_OUTPUT, &mut [0]);
        self.cut();
    }

    // The card terminal reads how many slabs were cut in the State Table, and leaves what it charged in R/W.
    fn pay(&mut self) {
        let mut state = [0; 4];
        self.load(
            Guest::Card,
            "load State of orders",
            ORDERS_STATE,
            &mut state,
        );
        self.store(
            Guest::Card,
            "charge slabs, store in the R/W section",
            COMMON,
            &state[..1],
        );
    }

    // A guest may not store to another's output section.
    fn refused_store(&mut self) {
        self.ask(
            Guest::Touch,
            "ask about the output section of planner",
            PLANNER_OUTPUT,
        );
        self.store(
            Guest::Touch,
            "store basket in the output section of planner",
            PLANNER_OUTPUT,
            &BASKET,
        );
    }

    fn double_tap(&mut self) {
        self.press();
        self.press();
        self.interrupt_control(Guest::Orders);
    }

    fn sale(&mut self) {
        self.plan();
        self.double_tap();
        self.order();
        self.pay();
    }

    // The guest has handled its order: the next press is a new one.
    fn second_sale(&mut self) {
        self.rearm();
        self.press();
        self.cut();
        self.rearm();
    }

    // The planner saves twice, and the others are rung once.
    fn saves(&mut self) {
        self.save();
        self.save();
    }
}

// Both taps are delivered: two slabs for one order.
pub fn first<R: Print>(terminal: &mut Terminal<'_, R>) {
    terminal.begin("run 1: one-shot off at orders");
    terminal.prepare(false);
    terminal.basket();
    terminal.refused_store();
    terminal.sale();
    terminal.saves();
    terminal.reset(Guest::Planner);
    terminal.report();
}

// The second tap is lost; a press after the guest has re-armed is delivered. The touch guest leaves with State 0,
// so nobody is rung.
pub fn second<R: Print>(terminal: &mut Terminal<'_, R>) {
    terminal.begin("run 2: one-shot on at orders");
    terminal.prepare(true);
    terminal.basket();
    terminal.sale();
    terminal.second_sale();
    terminal.disconnect(Guest::Touch);
    terminal.report();
}
