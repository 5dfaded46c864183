// The image of a logger's state: a table of contents and four bodies, each in its own part.
#![tactic(auto)]

ghost use Rattle.std.specs.Prelude.{◌≡◌};
ghost use Rattle.numbers.specs.Refusals.{number_in, answer_in};
ghost use Rattle.image.specs.Image.{save_answer, saved_bytes, state_read, restored_to, restored_by};

use bodies::{
    COUNT_WIDTH, EVENTS_AT, GATHERER_AT, IMAGE_LENGTH, SETTINGS_AT, VALUES_AT, WindowRead,
};
use numbers::Refusal;
use settings::Settings;
use state::State;

// The answer, beside the state that it leaves.
#[derive(Clone, Copy)]
pub struct Restored {
    pub answer: Result<(), Refusal>,
    pub state: State,
}

// Writes the image into the first bytes of a buffer; one that is shorter stays as it was.
pub fn save(state: State, image: &mut [u8]) -> Result<(), Refusal>
    ensures { (number_in result ≡ save_answer image.old) × (image.new ≡ saved_bytes state image.old) }
{
    if image.len() < IMAGE_LENGTH {
        return Err(Refusal::Room);
    }
    bodies::put_table(&mut image[0..SETTINGS_AT], COUNT_WIDTH as u64);
    state.settings.write(&mut image[SETTINGS_AT..GATHERER_AT]);
    bodies::put_gatherer(&mut image[GATHERER_AT..VALUES_AT], state.gatherer);
    bodies::put_values(
        &mut image[VALUES_AT..EVENTS_AT],
        state.detector.count,
        &state.window,
        &state.marks,
    );
    bodies::put_detector(&mut image[EVENTS_AT..IMAGE_LENGTH], state.detector);
    Ok(())
}

// The state of an image. Each section is taken only if the one before it was good.
pub fn read(bytes: &[u8]) -> Result<State, Refusal>
    ensures { answer_in result ≡ state_read bytes.now }
{
    if bytes.len() != IMAGE_LENGTH {
        return Err(Refusal::ImageLength);
    }
    let Ok(()) = bodies::read_table(&bytes[0..SETTINGS_AT], COUNT_WIDTH as u64) else {
        return Err(Refusal::ImageTable);
    };
    let Ok(settings) = Settings::from_bytes(&bytes[SETTINGS_AT..GATHERER_AT]) else {
        return Err(Refusal::ImageSettings);
    };
    let Ok(gatherer) = bodies::read_gatherer(&bytes[GATHERER_AT..VALUES_AT], settings) else {
        return Err(Refusal::ImageBody);
    };
    let Ok(values) = bodies::read_window(&bytes[VALUES_AT..EVENTS_AT], settings, gatherer.whole)
    else {
        return Err(Refusal::ImageBody);
    };
    let WindowRead {
        count,
        window,
        marks,
    } = values;
    let Ok(detector) = bodies::read_detector(&bytes[EVENTS_AT..IMAGE_LENGTH], settings, count)
    else {
        return Err(Refusal::ImageBody);
    };
    Ok(State {
        settings,
        gatherer,
        detector,
        window,
        marks,
    })
}

// On refusal the old state remains.
pub fn restore(old: State, bytes: &[u8]) -> Restored
    ensures { restored_to result.state result.answer ≡ restored_by old bytes.now }
{
    match read(bytes) {
        Ok(state) => Restored {
            answer: Ok(()),
            state,
        },
        Err(refusal) => Restored {
            answer: Err(refusal),
            state: old,
        },
    }
}
