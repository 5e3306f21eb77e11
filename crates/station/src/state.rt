ghost use Rattle.std.specs.Prelude.{◌≡◌};
ghost use Rattle.station.specs.Parts.{is_offline, state_number};
ghost use Rattle.station.specs.Steps.{with_token_time, to_listen_token, to_passive_idle, to_active_idle, to_use_token};

use bit_times::Micros;

/// PassTokenAttempt.
#[derive(Clone, Copy, Debug, PartialEq, Eq)]
pub enum PassTokenAttempt {
    First,
    Second,
    Third,
}

/// UseTokenData: when the token came, and the first application that declined since, which is the one asked first.
#[derive(Clone, Copy, Debug, PartialEq, Eq)]
pub struct UseTokenData {
    pub token_time: Micros,
    pub first_app: Option<u8>,
}

impl UseTokenData {
    /// UseTokenData::with_token_time: a new token has no first application.
    #[tactic(auto, unfolding(crate::specs::Steps::with_token_time))]
    pub fn with_token_time(now: Micros) -> Self
        ensures { result ≡ with_token_time now }
    {
        UseTokenData {
            token_time: now,
            first_app: None,
        }
    }
}

/// ConnectivityState.
#[derive(Clone, Copy, Debug, PartialEq, Eq)]
pub enum ConnectivityState {
    Offline,
    Passive,
    Online,
}

impl ConnectivityState {
    /// ConnectivityState::is_offline.
    #[tactic(auto, unfolding(crate::specs::Parts::is_offline))]
    pub fn is_offline(self) -> bool
        ensures { result ≡ is_offline self }
    {
        matches!(self, ConnectivityState::Offline)
    }
}

/// State. PassiveIdle, which the Rust has without a request, is document 02's; it comes last, as its number does. A status request
/// is kept as the station that asked.
#[derive(Clone, Copy, Debug, PartialEq, Eq)]
pub enum State {
    Offline,
    ListenToken {
        status_request: Option<u8>,
        collision_count: u8,
    },
    ActiveIdle {
        status_request: Option<u8>,
        /// A station whose token to us was seen once.
        new_previous_station: Option<u8>,
        collision_count: u8,
    },
    /// The flag comes first: it then stands beside the kind, and a state has 24 bytes.
    UseToken {
        first_cycle_done: bool,
        data: UseTokenData,
    },
    ClaimToken {
        first: bool,
    },
    AwaitDataResponse {
        address: u8,
        data: UseTokenData,
    },
    PassToken {
        do_gap: bool,
        attempt: PassTokenAttempt,
    },
    CheckTokenPass {
        attempt: PassTokenAttempt,
    },
    AwaitStatusResponse {
        address: u8,
    },
    PassiveIdle {
        status_request: Option<u8>,
    },
}

// Document 01's number, and the transitions of State that clear what the new state holds, or all but the token's time. Each of the
// others (transition_claim_token, transition_await_data_response, transition_pass_token, transition_check_token_pass,
// transition_await_status_response) is the state itself, written where it is entered.
impl State {
    /// Document 01's number of a state.
    pub fn number(self) -> u8
        ensures { result ≡ state_number self }
    {
        match self {
            State::Offline => 0,
            State::ListenToken { .. } => 1,
            State::ActiveIdle { .. } => 2,
            State::UseToken { .. } => 3,
            State::ClaimToken { .. } => 4,
            State::AwaitDataResponse { .. } => 5,
            State::PassToken { .. } => 6,
            State::CheckTokenPass { .. } => 7,
            State::AwaitStatusResponse { .. } => 8,
            State::PassiveIdle { .. } => 9,
        }
    }

    /// transition_listen_token.
    pub fn listen_token() -> Self
        ensures { result ≡ to_listen_token }
    {
        State::ListenToken {
            status_request: None,
            collision_count: 0,
        }
    }

    /// transition_passive_idle: no request is pending.
    pub fn passive_idle() -> Self
        ensures { result ≡ to_passive_idle }
    {
        State::PassiveIdle {
            status_request: None,
        }
    }

    /// transition_active_idle: nobody asked, nobody is remembered, nothing collided.
    pub fn active_idle() -> Self
        ensures { result ≡ to_active_idle }
    {
        State::ActiveIdle {
            status_request: None,
            new_previous_station: None,
            collision_count: 0,
        }
    }

    /// transition_use_token, with a token that came now.
    pub fn use_token(now: Micros) -> Self
        ensures { result ≡ to_use_token now }
    {
        State::UseToken {
            first_cycle_done: false,
            data: UseTokenData::with_token_time(now),
        }
    }
}
