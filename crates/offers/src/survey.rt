// What can be said of a draft without a board.
ghost use Rattle.drafts.specs.Checks.{WholeTables};
ghost use Rattle.offers.specs.Offers.{Offers};
ghost use Rattle.offers.specs.Surveys.{Surveyed};

use crate::refusal::Refusal;
use drafts::check::check;
use drafts::stage::Filled;
use drafts::tables::Tables;
use nets::Pace;
use nets::sound::SoundNet;
use rates::rate;
use timing::fastest_pace;

// The net that a filled draft offers, with its rates.
pub fn offered_net(filled: &Filled, tables: &Tables) -> Result<SoundNet, Refusal>
    ensures offers { Offers filled.now.sizes tables.now result }
    ensures whole { WholeTables tables.now }
{
    let checked = check(filled, tables)?;
    let net = rate(&checked)?;
    Ok(net)
}

// A net with its rates, and the fastest pace at which it has a timetable.
#[derive(Clone, Copy, Debug, PartialEq, Eq)]
pub struct NetSurvey {
    pub net: SoundNet,
    pub fastest: Pace,
}

// The rates of a filled draft's net, and its fastest pace.
pub fn survey(filled: &Filled, tables: &Tables) -> Result<NetSurvey, Refusal>
    ensures { Surveyed filled.now.sizes tables.now result }
{
    let net = offered_net(filled, tables)?;
    let fastest = fastest_pace(&net).ok_or(Refusal::NoPace)?;
    Ok(NetSurvey { net, fastest })
}
