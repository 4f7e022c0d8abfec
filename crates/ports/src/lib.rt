#![tactic(auto)]

// One port's record, and the transaction counter.
ghost use Rattle.std.specs.Prelude.{◌≡◌, ◌<◌, set, get_or};
ghost use Rattle.ports.specs.Ports.{fresh_port, closed, brought_up, taken_down, delegated, asked, changed_by, may_ask, answers, within};
ghost use Rattle.ports.specs.Transactions.{taken_from};

// asking: a request is open, with its figures and its transaction number.
// A flag with its values beside it, and no Option: C's `ancp_port` has these fields (layout_core).
#[repr(C)]
#[derive(Clone, Copy, Default)]
pub struct Port {
    pub up: bool,
    pub asking: bool,
    pub delegation: u32,
    pub required: u32,
    pub preferred: u32,
    pub transaction: u32,
}

// What a call does to its port's record. A request is asked with required, preferred and its transaction number.
#[derive(Clone, Copy)]
pub enum Change {
    Kept,
    BroughtUp,
    TakenDown,
    Delegated(u32),
    Closed,
    Asked(u32, u32, u32),
}

impl Port {
    pub fn fresh() -> Port
        ensures { result ≡ fresh_port }
    {
        Port::default()
    }

    #[tactic(auto, unfolding(crate::specs::Ports::may_ask, octets::specs::Tests::every))]
    pub fn may_ask(self, required: u32, preferred: u32) -> bool
        ensures { result ≡ may_ask self required preferred }
    {
        self.delegation < required && required <= preferred && !self.asking
    }

    #[tactic(auto, unfolding(crate::specs::Ports::answers, octets::specs::Tests::every))]
    pub fn answers(self, transaction: u32) -> bool
        ensures { result ≡ answers self transaction }
    {
        self.asking && self.transaction == transaction
    }

    #[tactic(auto, unfolding(crate::specs::Ports::within, octets::specs::Tests::every))]
    pub fn within(self, amount: u32) -> bool
        ensures { result ≡ within self amount }
    {
        self.required <= amount && amount <= self.preferred
    }

    // ---- changes of the record where it is stored

    pub fn bring_up(&mut self)
        ensures { self.new ≡ brought_up self.old }
    {
        self.up = true;
    }

    #[tactic(auto, unfolding(crate::specs::Ports::taken_down))]
    pub fn take_down(&mut self)
        ensures { self.new ≡ taken_down self.old }
    {
        if self.up {
            self.close();
            self.up = false;
        }
    }

    pub fn delegate(&mut self, amount: u32)
        ensures { self.new ≡ delegated self.old amount }
    {
        self.close();
        self.delegation = amount;
    }

    pub fn close(&mut self)
        ensures { self.new ≡ closed self.old }
    {
        self.asking = false;
        self.required = 0;
        self.preferred = 0;
        self.transaction = 0;
    }

    pub fn ask(&mut self, required: u32, preferred: u32, transaction: u32)
        ensures { self.new ≡ asked self.old required preferred transaction }
    {
        self.asking = true;
        self.required = required;
        self.preferred = preferred;
        self.transaction = transaction;
    }

    #[tactic(auto, unfolding(crate::specs::Ports::changed_by))]
    pub fn update(&mut self, c: Change)
        ensures { self.new ≡ changed_by c self.old }
    {
        match c {
            Change::Kept => {}
            Change::BroughtUp => self.bring_up(),
            Change::TakenDown => self.take_down(),
            Change::Delegated(amount) => self.delegate(amount),
            Change::Closed => self.close(),
            Change::Asked(required, preferred, transaction) => {
                self.ask(required, preferred, transaction)
            }
        }
    }
}

// Port p's record changes where the table stores it, and no other port's.
pub fn update_in(ports: &mut [Port; 64], p: usize, c: Change)
    requires { p < 64 }
    ensures { ports.new ≡ set ports.old p (changed_by c (get_or ports.old p fresh_port)) }
{
    ports[p].update(c);
}

#[repr(C)]
#[derive(Clone, Copy)]
pub struct Counter {
    pub number: u32,
}

#[repr(C)]
#[derive(Clone, Copy)]
pub struct Taken {
    pub number: u32,
    pub next: Counter,
}

impl Counter {
    // The number for the next message that the card begins, and the counter after it.
    pub fn take(mut self) -> Taken
        ensures { result ≡ taken_from self }
    {
        let number = self.number;
        self.number = if number < 16777215 { number + 1 } else { 1 };
        Taken { number, next: self }
    }
}
