//! One telegram heard in ListenToken: the closure of do_listen_token in profirust's active.rs, which receive_all_telegrams
//! hands each telegram to. And one heard in PassiveIdle, which document 02 has as ListenToken but for collisions: what a telegram
//! of another station does is the same in both (`overhear`). It leans on station and ring.
#![tactic(auto)]

ghost use Rattle.std.specs.Prelude.{◌≡◌};
ghost use Rattle.station.specs.Whole.{after_hearing};
ghost use Rattle.station_hear_listen.specs.HearListen.{collided, sent_by_us, noted_of, witnessed_of, overheard_of, listen_telegram};

use codec_answers::Outcome;
use codec_telegrams::Telegram;
use ring::TokenRing;
use station::{Core, Hearing, State, Station};

// do_listen_token: a telegram with our own source. The first collision is counted, the second leads offline. Each is a meeting of
// our own address.
#[tactic(auto, unfolding(crate::specs::HearListen::collided, station::specs::Steps::collision_of))]
fn do_listen_token_collision(
    station: &mut Station,
    status_request: Option<u8>,
    collision_count: u8,
) -> Hearing
    ensures { (station.new, result) ≡ after_hearing station.old (collided station.old.p station.old.core station.old.token_ring status_request collision_count) }
{
    if collision_count == 0 {
        station.state = State::ListenToken {
            status_request,
            collision_count: 1,
        };
    } else {
        station.state = State::Offline;
        station.core = Core::new();
        station.token_ring = TokenRing::new(station.p.address);
    }
    Hearing::collision()
}

// Is the telegram's source our own address? A short confirmation has none.
#[tactic(auto, unfolding(crate::specs::HearListen::sent_by_us))]
fn sent_by_us(own: u8, telegram: Telegram) -> bool
    ensures { result ≡ sent_by_us own telegram }
{
    match telegram {
        Telegram::Token { source, .. }
        | Telegram::Request { source, .. }
        | Telegram::Response { source, .. } => source == own,
        Telegram::ShortConfirmation => false,
    }
}

// What a telegram of another station does in ListenToken and in PassiveIdle. A token is witnessed. A status request to us that is
// last of its poll is noted, and is answered after a delay; else the poll waits for the bus.
#[tactic(auto, unfolding(crate::specs::HearListen::witnessed_of, crate::specs::HearListen::noted_of, crate::specs::HearListen::overheard_of))]
fn overhear(
    own: u8,
    token_ring: &mut TokenRing,
    status_request: &mut Option<u8>,
    telegram: Telegram,
    last: bool,
) -> Hearing
    ensures ring { token_ring.new ≡ witnessed_of token_ring.old telegram }
    ensures request { status_request.new ≡ noted_of own status_request.old telegram last }
    ensures hearing { result ≡ record { outcome = overheard_of own telegram last; met = 0 } }
{
    match telegram {
        Telegram::Token {
            destination,
            source,
        } => {
            token_ring.witness_token_pass(source, destination);
            Hearing::new(Outcome::Bus)
        }
        Telegram::Request {
            destination,
            source,
            status_request: asks,
        } if station::is_last_request_to_us(destination, own, asks, last) => {
            *status_request = Some(source);
            Hearing::new(Outcome::Delay)
        }
        _ => Hearing::new(Outcome::Bus),
    }
}

/// do_listen_token, do_passive_idle: one telegram. In ListenToken our own address as its source is a collision, in PassiveIdle it
/// changes nothing. Once a collision has led offline, the rest of the poll only marks activity.
#[tactic(auto, unfolding(crate::specs::HearListen::listen_telegram, crate::specs::HearListen::listen_heard, crate::specs::HearListen::passive_heard, station::specs::Steps::heard_of))]
pub fn do_listen_token_telegram(station: &mut Station, telegram: Telegram, last: bool) -> Hearing
    ensures { (station.new, result) ≡ after_hearing station.old (listen_telegram station.old.p station.old.state station.old.core station.old.token_ring telegram last) }
{
    let own = station.p.address;
    if sent_by_us(own, telegram) {
        return match station.state {
            State::ListenToken {
                status_request,
                collision_count,
            } => do_listen_token_collision(station, status_request, collision_count),
            _ => Hearing::new(Outcome::Bus),
        };
    }
    let token_ring = &mut station.token_ring;
    match &mut station.state {
        State::ListenToken { status_request, .. } => overhear(
            own,
            token_ring,
            status_request,
            telegram,
            last,
        ),
        State::PassiveIdle { status_request } => overhear(
            own,
            token_ring,
            status_request,
            telegram,
            last,
        ),
        _ => Hearing::new(Outcome::Bus),
    }
}
