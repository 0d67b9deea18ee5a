// The values that planner, checker and board exchange. Their meaning is in docs/RULES.md, and as definitions in specs/.
#![tactic(auto)]

ghost use Rattle.std.specs.Prelude.{◌≡◌};
ghost use Rattle.rules.specs.Kinds.{kind_of};
ghost use Rattle.rules.specs.Answers.{reason_number, number_of, place_of, count_of};

// What `_DSW` is told: to let the device wake the system from sleep state `sleep` while it is in device state `state`, or to stop.
#[derive(Clone, Copy)]
pub enum Wake {
    Enable { sleep: u8, state: u8 },
    Disable,
}

// A method call. Resources and devices go by their numbers in the power table.
#[derive(Clone, Copy)]
pub enum Call {
    // `_ON` of a power resource
    ResourceOn(u8),
    // `_OFF` of a power resource
    ResourceOff(u8),
    // `_PSx` of a device, x being the method
    SetState { device: u8, method: u8 },
    // `_DSW` of a device
    SetWake { device: u8, wake: Wake },
}

// A request as the board makes it: any four numbers.
#[derive(Clone, Copy)]
pub struct Request {
    pub kind: u32,
    pub device: u32,
    pub a: u32,
    pub b: u32,
}

// What a request asks (RULES.md 2.8), in the order of the kinds' numbers.
#[derive(Clone, Copy)]
pub enum Kind {
    Move = 1,
    Arm,
    Disarm,
    Sleep,
}

impl Request {
    // What it asks, if there is a kind of its number.
    pub fn asks(self) -> Option<Kind>
        ensures { result ≡ kind_of self.kind }
    {
        match self.kind {
            1 => Some(Kind::Move),
            2 => Some(Kind::Arm),
            3 => Some(Kind::Disarm),
            4 => Some(Kind::Sleep),
            _ => None,
        }
    }
}

// What the state image says of a device: its state; armed, 0 or 1; and the pair it is armed for, wake S and wake D (RULES.md 2.7). No
// `Option` of the pair: these are the four bytes that C lends, and one with any other flag is answered 7 (`entry_good`).
#[derive(Clone, Copy)]
pub struct Entry {
    pub state: u8,
    pub armed: u8,
    pub sleep: u8,
    pub wake: u8,
}

// The calls from an on-set to a target set: what is added to the on-set and what is removed from it, a device's own call or none, and
// whether that comes last, which is said without a call too (`own_last`, `switching_of`), and so stands apart from it.
#[derive(Clone, Copy)]
pub struct Switching {
    pub added: u64,
    pub removed: u64,
    pub own: Option<Call>,
    pub last: bool,
}

// What a permitted request does: the device's new entry, the set needed afterwards, and the calls.
#[derive(Clone, Copy)]
pub struct Change {
    pub entry: Entry,
    pub needed: u64,
    pub switching: Switching,
}

// Why a table, a state, a request, a list, a description or a buffer is refused, in the order of the answers' numbers, 1 to 21.
#[derive(Clone, Copy)]
pub enum Reason {
    NotATable = 1,
    TooMany,
    WrongLength,
    // the place is the resource
    BadResource,
    // the place is the device, and so of the next and of `Inconsistent`
    BadDevice,
    BadObjects,
    BadState,
    // the state is not consistent (RULES.md 4.3; for bring-up 12.1)
    Inconsistent,
    NoRoom,
    BadRequest,
    Unsupported,
    Shallower,
    // the place is the parent
    ParentDeeper,
    // the place is the child
    ChildShallower,
    TooDeepToWake,
    NoWake,
    WakeUnpowered,
    BadWakeState,
    // the list does not conform (RULES.md 7)
    NotConforming,
    // a device is armed, and not for the sleep state asked for; the place is the device
    ArmedForOther,
    // no choice of states for all devices (RULES.md 13.2)
    NoChoice,
}

// A refusal: the reason, and the place, 0 where the reason names none.
#[derive(Clone, Copy)]
pub struct Refusal(pub Reason, pub usize);

// An answer: done with a count, of the calls in a plan or of the bytes that write and describe have written, else 0; or refused.
pub type Verdict = Result<usize, Refusal>;

// The number of a refusal (RULES.md 9.3).
fn reason_number(why: Reason) -> u8
    ensures { result ≡ reason_number why }
{
    why as u8
}

// The number of an answer.
pub fn number(v: Verdict) -> u8
    ensures { result ≡ number_of v }
{
    match v {
        Ok(_) => 0,
        Err(Refusal(why, _)) => reason_number(why),
    }
}

// The place of an answer.
pub fn place(v: Verdict) -> usize
    ensures { result ≡ place_of v }
{
    match v {
        Ok(_) => 0,
        Err(Refusal(_, at)) => at,
    }
}

// The count of an answer.
pub fn count(v: Verdict) -> usize
    ensures { result ≡ count_of v }
{
    v.unwrap_or(0)
}
