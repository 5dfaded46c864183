// Makes lists of calls of a three-phase logger and prints every answer, with each lent buffer as the call leaves it, for a comparison with what 02 says of them.
//
// Standard input holds items as `call_items` tells, of these kinds:
//
//   kind      number                       bytes that follow   prints
//   0 start   how many calls the list has  settings            start, or: refused, number
//   1 feed    length of the record buffer  samples             feed, taken, written, why, record buffer; or: refused, number, record buffer
//   2 look    none                         none                look, then V, value and sum of a, of b and of c, then phase, dip, swell, interruption
//
// Each answer is a line, with a space between words; numbers are in base ten, buffers in base sixteen. Samples are low byte first, in turn a, b, c; a last odd
// byte is none. An item of another kind in a list is skipped.
#![tactic(auto)]

use call_items::{Item, Kind, List, MOST, MOST_SAMPLES};
use numbers::Refusal;
use three_logger::ThreeLogger;
use three_reading::ChannelReadings;

// A logger, as the calls of its list leave it.
#[derive(Clone, Copy)]
struct Calls {
    logger: ThreeLogger,
}

impl List for Calls {
    fn start(settings: &[u8]) -> Result<Calls, Refusal> {
        let logger = ThreeLogger::start(settings)?;
        Ok(Calls { logger })
    }

    fn call(&mut self, rt: HostRuntime, item: Item, bytes: &[u8; MOST], space: &mut [u8; MOST]) {
        match item.kind {
            Kind::Feed => self.feed(rt, item, bytes, space),
            Kind::Look => self.look(rt),
            _ => {}
        }
    }
}

impl Calls {
    fn feed(&mut self, rt: HostRuntime, item: Item, bytes: &[u8; MOST], space: &mut [u8; MOST]) {
        let mut places = [0i16; MOST_SAMPLES];
        let block = item.samples(bytes, &mut places);
        let records = item.lent(space);
        let fed = self.logger.feed(block, records);
        self.logger = fed.logger;
        match fed.answer {
            Ok(told) => call_items::print_told(rt, b"feed", told),
            Err(refusal) => call_items::print_number(rt, b"refused", u64::from(refusal.number())),
        }
        call_items::print_bytes(rt, records);
    }

    fn look(&self, rt: HostRuntime) {
        let readings = self.logger.look();
        call_items::print(rt, "look");
        print_channel(rt, readings.channels.a);
        print_channel(rt, readings.channels.b);
        print_channel(rt, readings.channels.c);
        call_items::print_standing(
            rt,
            readings.phase,
            readings.dip,
            readings.swell,
            readings.interruption,
        );
    }
}

fn print_channel(rt: HostRuntime, readings: ChannelReadings) {
    call_items::print(
        rt,
        format_args!(" {} {} {}", readings.count, readings.value, readings.sum),
    );
}

fn main(rt: HostRuntime) {
    call_items::make_lists::<Calls>(rt);
}
