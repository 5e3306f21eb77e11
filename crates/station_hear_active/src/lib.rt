//! One telegram heard in ActiveIdle, and while a passed token is checked: handle_telegram of profirust's active.rs. It leans
//! on station and ring.
#![tactic(auto)]

ghost use Rattle.std.specs.Prelude.{◌≡◌};
ghost use Rattle.station.specs.Whole.{after_hearing};
ghost use Rattle.station_hear_active.specs.HearActive.{active_collided, token_to_us, token_witnessed, token_heard, handle_telegram};

use bit_times::Micros;
use codec_answers::Outcome;
use codec_telegrams::Telegram;
use station::{Hearing, State, Station};

// handle_telegram: a token with our own source. The first is counted, the second back to back leads to ListenToken. Each is a
// meeting of our own address.
#[tactic(auto, unfolding(crate::specs::HearActive::active_collided, station::specs::Steps::collision_of))]
fn handle_telegram_collision(
    station: &mut Station,
    status_request: Option<u8>,
    new_previous_station: Option<u8>,
    collision_count: u8,
) -> Hearing
    ensures { (station.new, result) ≡ after_hearing station.old (active_collided station.old.core station.old.token_ring status_request new_previous_station collision_count) }
{
    station.state = if collision_count == 0 {
        State::ActiveIdle {
            status_request,
            new_previous_station,
            collision_count: 1,
        }
    } else {
        State::listen_token()
    };
    Hearing::collision()
}

// handle_telegram: a token to us, last of its poll and not by us: from the previous station or from the remembered one
// it is accepted, from any other its sender is remembered.
#[tactic(auto, unfolding(crate::specs::HearActive::token_to_us, crate::specs::HearActive::accepted_of, crate::specs::HearActive::remembers, station::specs::Steps::heard_of))]
fn handle_telegram_to_us(
    station: &mut Station,
    now: Micros,
    status_request: Option<u8>,
    new_previous_station: Option<u8>,
    destination: u8,
    source: u8,
) -> Hearing
    ensures { (station.new, result) ≡ after_hearing station.old (token_to_us station.old.core station.old.token_ring now status_request new_previous_station destination source) }
{
    if source != station.token_ring.previous_station() {
        if new_previous_station != Some(source) {
            station.state = State::ActiveIdle {
                status_request,
                new_previous_station: Some(source),
                collision_count: 0,
            };
            return Hearing::new(Outcome::Bus);
        }
        station.token_ring.witness_token_pass(source, destination);
    }
    station.state = State::use_token(now);
    Hearing::new(Outcome::Delay)
}

// handle_telegram: another station's token is witnessed; collisions are counted only back to back.
#[tactic(auto, unfolding(crate::specs::HearActive::token_witnessed, station::specs::Steps::heard_of))]
fn handle_telegram_witness(
    station: &mut Station,
    status_request: Option<u8>,
    new_previous_station: Option<u8>,
    destination: u8,
    source: u8,
) -> Hearing
    ensures { (station.new, result) ≡ after_hearing station.old (token_witnessed station.old.core station.old.token_ring status_request new_previous_station destination source) }
{
    station.token_ring.witness_token_pass(source, destination);
    station.state = State::ActiveIdle {
        status_request,
        new_previous_station,
        collision_count: 0,
    };
    Hearing::new(Outcome::Bus)
}

// handle_telegram: a token telegram.
#[tactic(auto, unfolding(crate::specs::HearActive::token_heard))]
fn handle_telegram_token(
    station: &mut Station,
    now: Micros,
    status_request: Option<u8>,
    new_previous_station: Option<u8>,
    collision_count: u8,
    destination: u8,
    source: u8,
    last: bool,
) -> Hearing
    ensures { (station.new, result) ≡ after_hearing station.old (token_heard station.old.p station.old.core station.old.token_ring now status_request new_previous_station collision_count destination source last) }
{
    let own = station.p.address;
    if source == own {
        handle_telegram_collision(
            station,
            status_request,
            new_previous_station,
            collision_count,
        )
    } else if destination == own && last {
        handle_telegram_to_us(
            station,
            now,
            status_request,
            new_previous_station,
            destination,
            source,
        )
    } else {
        handle_telegram_witness(
            station,
            status_request,
            new_previous_station,
            destination,
            source,
        )
    }
}

/// handle_telegram: one telegram, while in ActiveIdle. A status request to us that is last of its poll is noted. Once a collision
/// has led to ListenToken, the rest of the poll only marks activity.
#[tactic(auto, unfolding(crate::specs::HearActive::handle_telegram, crate::specs::HearActive::active_heard, crate::specs::HearActive::active_requested, station::specs::Steps::heard_of))]
pub fn handle_telegram(
    station: &mut Station,
    now: Micros,
    telegram: Telegram,
    last: bool,
) -> Hearing
    ensures { (station.new, result) ≡ after_hearing station.old (handle_telegram station.old.p station.old.state station.old.core station.old.token_ring now telegram last) }
{
    let own = station.p.address;
    let State::ActiveIdle {
        status_request,
        new_previous_station,
        collision_count,
    } = station.state
    else {
        return Hearing::new(Outcome::Bus);
    };
    match telegram {
        Telegram::Token {
            destination,
            source,
        } => handle_telegram_token(
            station,
            now,
            status_request,
            new_previous_station,
            collision_count,
            destination,
            source,
            last,
        ),
        Telegram::Request {
            destination,
            source,
            status_request: asks,
        } if station::is_last_request_to_us(destination, own, asks, last) => {
            station.state = State::ActiveIdle {
                status_request: Some(source),
                new_previous_station,
                collision_count,
            };
            Hearing::new(Outcome::Delay)
        }
        _ => Hearing::new(Outcome::Bus),
    }
}
