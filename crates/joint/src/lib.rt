// One value of each of three channels: what is kept of them beside the windows, after it, and the records due at it.
#![tactic(auto)]

ghost use Rattle.std.specs.Prelude.{◌≡◌, ◌≤◌};
ghost use Rattle.three_reading.specs.JointEvents.{worst as worst_of};
ghost use Rattle.joint.specs.Joint.{Small3, joint_begins_at, joint_ends_at, joint_stepped_at, worse_record, worse_ended};
ghost use Rattle.joint.specs.Joint.{no_own, no_values, entering_of, own_moved_by, standings_by, joint_tried_by, EnterReady, JointReady};
ghost use Rattle.joint.specs.Joint.{entered_of, entered_true, EnteredSmall, all_moved_by, due_from, after_from, sums_from};

use reading::{Event, Kind, Record};
use records::Due;
use rms::Marked;
use rvc::{Joining, Phase, Signal, Stands};
use settings::{Scaled, Settings, Threshold};
use three_reading::Three;
use threshold::Standing;
use window::Sums;

// The values of three channels, and whether one of them is clipped. That none is above 524,288 each function asks for (`Small3`), and the type does not say it:
// in specs/ `jointly` makes one of any values.
#[derive(Clone, Copy)]
pub struct Values {
    pub sizes: Three<u32>,
    pub clipped: bool,
}

// What is kept of one channel's values beside its window: its phase under the joint signal, and its own signal. Here and below the order of the fields is for
// speed: what lies behind a tag or a bool is copied by pieces.
#[derive(Clone, Copy)]
pub struct Own {
    pub phase: Phase,
    pub signal: Signal,
}

// The joint events that stand. They are fields and no array, as each has a kind and levels of its own, and `joint_of` names it.
#[derive(Clone, Copy)]
pub struct Standings {
    pub dip: Standing,
    pub swell: Standing,
    pub interruption: Standing,
}

// What is kept of the values of all three: what is kept of each channel, their count, and the joint events that stand.
#[derive(Clone, Copy)]
pub struct Joint {
    pub own: Three<Own>,
    pub count: u64,
    pub standings: Standings,
}

// The sums of the three windows, and how many of their joint values are clipped.
#[derive(Clone, Copy)]
pub struct JointSums {
    pub values: Three<u64>,
    pub marks: u64,
}

// What is kept after a value of each channel, the records due at it, and the sums of the windows with it.
#[derive(Clone, Copy)]
pub struct JointTried {
    pub after: Joint,
    pub due: Due,
    pub sums: JointSums,
}

// A value that joins its channel's window, the sums of the window with it, and the own signal at it.
#[derive(Clone, Copy)]
struct Entering {
    joining: Joining,
    sums: Sums,
    signal: Signal,
}

// What a value leaves of one channel, and the record of a change that ends with it, as that channel has it.
#[derive(Clone, Copy)]
struct OwnMoved {
    own: Own,
    ended: Option<Record>,
}

// The worst of three values: the lowest of a dip or an interruption, the highest of a swell.
fn worst(kind: Kind, sizes: Three<u32>) -> u64
    ensures { result ≡ worst_of kind sizes }
{
    let others = threshold::worse_of(kind, u64::from(sizes.b), u64::from(sizes.c));
    threshold::worse_of(kind, u64::from(sizes.a), others)
}

// A dip or a swell begins with any channel, an interruption with all.
fn begins(kind: Kind, level: Threshold, sizes: Three<u32>) -> bool
    requires { Small3 sizes }
    ensures { result ≡ joint_begins_at kind level sizes }
{
    let beyond = sizes.map(|size: u32| threshold::begins(kind, level, u64::from(size)));
    match kind {
        Kind::Dip | Kind::Swell => beyond.any(),
        Kind::Interruption => beyond.all(),
    }
}

// A dip or a swell ends with all channels, an interruption with any.
fn ends(kind: Kind, level: Threshold, sizes: Three<u32>) -> bool
    requires { Small3 sizes }
    ensures { result ≡ joint_ends_at kind level sizes }
{
    let back = sizes.map(|size: u32| threshold::ends(kind, level, u64::from(size)));
    match kind {
        Kind::Dip | Kind::Swell => back.all(),
        Kind::Interruption => back.any(),
    }
}

// A joint event after value i.
fn step(standing: Standing, kind: Kind, level: Threshold, i: u64, values: Values) -> Standing
    requires { Small3 values.sizes }
    ensures { result ≡ joint_stepped_at kind level i values standing }
{
    let sizes = values.sizes;
    standing.step(
        kind,
        i,
        worst(kind, sizes),
        values.clipped,
        begins(kind, level, sizes),
        ends(kind, level, sizes),
    )
}

// The joint signal: all three own ones are true.
fn all_true(entered: Three<Entering>) -> bool
    ensures { result ≡ entered_true entered }
{
    entered
        .map(|entering: Entering| matches!(entering.signal, Signal::Steady))
        .all()
}

// Of a change that ends in two channels the worse: each magnitude by itself.
fn worse_record(x: Record, y: Record) -> Record
    ensures { result ≡ worse_record x y }
{
    Record {
        event: Event {
            first: x.event.first.max(y.event.first),
            second: x.event.second.max(y.event.second),
            ..x.event
        },
        clipped: x.clipped | y.clipped,
    }
}

// Of a recording, all phases stand under one signal and keep one stand, and so end together or not at all.
fn worse_ended(x: Option<Record>, y: Option<Record>) -> Option<Record>
    ensures { result ≡ worse_ended x y }
{
    Some(worse_record(x?, y?))
}

impl Own {
    pub fn new() -> Own
        ensures { result ≡ no_own }
    {
        Own {
            signal: Signal::Filling,
            phase: Phase::Filling,
        }
    }

    // A value joins the channel's window, after `count` others.
    fn enter(
        self,
        settings: Settings,
        scaled: Scaled,
        count: u64,
        window: &[u32; 120],
        marks: &[u8; 120],
        sums: Sums,
        value: Marked,
        stands: Stands,
    ) -> Entering
        requires { EnterReady settings scaled count window.now marks.now sums value self }
        ensures { result ≡ entering_of settings count window.now marks.now value stands self }
    {
        let window_length = settings.window_length();
        let joined = detection::join_window(
            window_length,
            count,
            window,
            marks,
            sums,
            value,
            stands,
        );
        let joining = joined.joining;
        let first = detection::first_staying(count, window_length);
        let end = first + (window_length as usize - 1);
        let truth = self
            .signal
            .is_true(scaled, window_length, &window[first..end], joining);
        Entering {
            joining,
            sums: joined.sums,
            signal: self.signal.after(window_length, joining.number, truth),
        }
    }

    // The channel's phase goes on under the joint signal.
    fn go_on(self, window_length: u64, entering: Entering, steady: bool) -> OwnMoved
        requires { (window_length ≤ 120) × (entering.joining.leaving ≤ 524288) }
        ensures { result ≡ own_moved_by window_length entering steady self }
    {
        let moved = self.phase.moved(window_length, entering.joining, steady);
        OwnMoved {
            own: Own {
                signal: entering.signal,
                phase: moved.phase,
            },
            ended: moved.ended,
        }
    }
}

impl Standings {
    // The joint events after value i.
    fn step(self, scaled: Scaled, i: u64, values: Values) -> Standings
        requires { Small3 values.sizes }
        ensures { result ≡ standings_by scaled i values self }
    {
        Standings {
            dip: step(self.dip, Kind::Dip, scaled.dip, i, values),
            swell: step(self.swell, Kind::Swell, scaled.swell, i, values),
            interruption: step(
                self.interruption,
                Kind::Interruption,
                scaled.interruption,
                i,
                values,
            ),
        }
    }
}

// What is kept after value i.
fn after_of(i: u64, standings: Standings, moved: Three<OwnMoved>) -> Joint
    ensures { result ≡ after_from i standings moved }
{
    Joint {
        own: moved.map(|channel: OwnMoved| channel.own),
        count: i,
        standings,
    }
}

// The sums of the windows with a value of each channel. The marks are joint, so any channel's sum of them is the one.
fn sums_of(entered: Three<Entering>) -> JointSums
    ensures { result ≡ sums_from entered }
{
    JointSums {
        values: entered.map(|entering: Entering| entering.sums.values),
        marks: entered.a.sums.marks,
    }
}

impl Joint {
    pub fn new() -> Joint
        ensures { result ≡ no_values }
    {
        let none = Standing::none();
        let own = Own::new();
        Joint {
            own: Three {
                a: own,
                b: own,
                c: own,
            },
            count: 0,
            standings: Standings {
                dip: none,
                swell: none,
                interruption: none,
            },
        }
    }

    // The value of each channel joins its window.
    fn enter(
        self,
        settings: Settings,
        scaled: Scaled,
        windows: &Three<[u32; 120]>,
        marks: &[u8; 120],
        sums: JointSums,
        values: Values,
        stands: Stands,
    ) -> Three<Entering>
        requires { JointReady settings scaled self windows.now marks.now sums values }
        ensures { result ≡ entered_of settings values self windows.now marks.now stands }
    {
        let enter = |own: Own, window: &[u32; 120], sum: u64, size: u32| {
            let sums = Sums {
                values: sum,
                marks: sums.marks,
            };
            let value = Marked {
                value: size,
                clipped: values.clipped,
            };
            own.enter(
                settings, scaled, self.count, window, marks, sums, value, stands,
            )
        };
        Three {
            a: enter(self.own.a, &windows.a, sums.values.a, values.sizes.a),
            b: enter(self.own.b, &windows.b, sums.values.b, values.sizes.b),
            c: enter(self.own.c, &windows.c, sums.values.c, values.sizes.c),
        }
    }

    // Each channel's phase goes on under the joint signal.
    fn go_on(self, window_length: u64, entered: Three<Entering>) -> Three<OwnMoved>
        requires { (window_length ≤ 120) × EnteredSmall entered }
        ensures { result ≡ all_moved_by window_length entered self }
    {
        let steady = all_true(entered);
        Three {
            a: self.own.a.go_on(window_length, entered.a, steady),
            b: self.own.b.go_on(window_length, entered.b, steady),
            c: self.own.c.go_on(window_length, entered.c, steady),
        }
    }

    // The records due at value i, by kind.
    fn due(self, i: u64, standings: Standings, moved: Three<OwnMoved>) -> Due
        ensures { result ≡ due_from i standings moved self }
    {
        let before = self.standings;
        Due {
            dip: before.dip.ended(Event::DIP, i, standings.dip),
            swell: before.swell.ended(Event::SWELL, i, standings.swell),
            interruption: before
                .interruption
                .ended(Event::INTERRUPTION, i, standings.interruption),
            change: worse_ended(moved.a.ended, worse_ended(moved.b.ended, moved.c.ended)),
        }
    }

    // One more value of each channel, worked out from the windows before it, so that nothing has to be undone where its records do not fit. `scaled` is that of the
    // settings, which alone a state keeps: the caller works it out once for a block. The windows, their marks and their sums come apart, here and above: the caller
    // writes the first two in place, and a state keeps no sums.
    pub fn try_values(
        self,
        settings: Settings,
        scaled: Scaled,
        windows: &Three<[u32; 120]>,
        marks: &[u8; 120],
        sums: JointSums,
        values: Values,
    ) -> JointTried
        requires { JointReady settings scaled self windows.now marks.now sums values }
        ensures { result ≡ joint_tried_by settings values self windows.now marks.now }
    {
        let i = self.count + 1;
        let before = self.standings;
        let after = before.step(scaled, i, values);
        let stands = detection::stands_at(i, before.dip, before.swell, after.dip, after.swell);
        let entered = self.enter(settings, scaled, windows, marks, sums, values, stands);
        let moved = self.go_on(settings.window_length(), entered);
        JointTried {
            after: after_of(i, after, moved),
            due: self.due(i, after, moved),
            sums: sums_of(entered),
        }
    }
}
