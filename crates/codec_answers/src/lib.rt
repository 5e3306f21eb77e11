//! Document 01's answer of 64 bits: a struct with enums for outcome, sent and notice, packed into a word and unpacked again. A field
//! that has no meaning in a case is zero, since the case has no number for it. It leans on codec_fields for the bits and
//! on codec_telegrams for the station type.
#![tactic(auto)]

ghost use Rattle.std.specs.Prelude.{◌≡◌};
ghost use Rattle.codec_answers.specs.Answers.{sent_bytes, outcome_number, outcome_of, sent_fields, sent_from, notice_fields, notice_from, refused_answer, answer_word, full_of, answer_of, refusal_known, sent_meant, meant, unpack_of};

use codec_fields::{field, put};
use codec_telegrams::ResponseState;

// The largest state: 0 Offline, 1 ListenToken, 2 ActiveIdle, 3 UseToken, 4 ClaimToken, 5 AwaitDataResponse, 6 PassToken,
// 7 CheckTokenPass, 8 AwaitStatusResponse, 9 PassiveIdle.
const LAST_STATE: u8 = 9;

/// How a poll ended.
#[derive(Clone, Copy, Debug, PartialEq, Eq)]
pub enum Outcome {
    None,
    Offline,
    Transmission,
    Bus,
    Delay,
}

/// What was sent. An application's destination is the reply address, 0 where no reply is expected.
// Nothing is a case and no `Option`: document 01's field of what was sent has a kind 0.
#[derive(Clone, Copy, Debug, PartialEq, Eq)]
pub enum Sent {
    Nothing,
    Token {
        destination: u8,
    },
    StatusRequest {
        destination: u8,
    },
    StatusResponse {
        destination: u8,
        state: ResponseState,
    },
    Application {
        destination: u8,
        application: u8,
        high: bool,
        bytes: u8,
    },
}

/// What an application is told: a reply from the address that it awaits one from, or that none came.
// NoNotice is a case and no `Option`: document 01's field of a notice has a kind 0.
#[derive(Clone, Copy, Debug, PartialEq, Eq)]
pub enum Notice {
    NoNotice,
    Reply { application: u8, address: u8 },
    Timeout { application: u8, address: u8 },
}

/// An entry's answer. The state is that after the entry, by its number; the refusal is 0 for an entry that is not refused.
// The refusal is a number and no `Option<Refusal>`: a word's five bits may say 16, which earlier versions gave and no `Refusal` names.
#[derive(Clone, Copy, Debug, PartialEq, Eq)]
pub struct Answer {
    pub refusal: u8,
    pub outcome: Outcome,
    pub state: u8,
    pub sent: Sent,
    pub consumed: u8,
    pub notice: Notice,
    pub next_application: u8,
    pub next_station: u8,
}

// The six fields of what was sent.
#[derive(Clone, Copy, Debug, PartialEq, Eq)]
struct SentFields {
    kind: u8,
    destination: u8,
    state: u8,
    application: u8,
    high: bool,
    bytes: u8,
}

// The three fields of a notice.
#[derive(Clone, Copy, Debug, PartialEq, Eq)]
struct NoticeFields {
    kind: u8,
    application: u8,
    address: u8,
}

impl From<Outcome> for u8 {
    ghost from_gives = { λ outcome number. number ≡ outcome_number outcome };

    /// The number of an outcome.
    fn from(outcome: Outcome) -> u8 {
        outcome as u8
    }
}

impl Outcome {
    // The outcome of a number; none where there is no such outcome.
    #[tactic(auto, unfolding(crate::specs::Answers::outcome_of))]
    fn from_number(number: u8) -> Outcome
        ensures { result ≡ outcome_of number }
    {
        match number {
            1 => Outcome::Offline,
            2 => Outcome::Transmission,
            3 => Outcome::Bus,
            4 => Outcome::Delay,
            _ => Outcome::None,
        }
    }
}

impl Sent {
    /// How many bytes were sent: a token has 3, an FDL status request or response 6, an application's telegram as many as it said.
    pub fn bytes(self) -> u8
        ensures { result ≡ sent_bytes self }
    {
        match self {
            Sent::Nothing => 0,
            Sent::Token { .. } => 3,
            Sent::StatusRequest { .. } | Sent::StatusResponse { .. } => 6,
            Sent::Application { bytes, .. } => bytes,
        }
    }

    // Whether an application that sends sends a byte.
    #[tactic(auto, unfolding(crate::specs::Answers::sent_meant))]
    fn is_meant(self) -> bool
        ensures { result ≡ sent_meant self }
    {
        !matches!(self, Sent::Application { bytes: 0, .. })
    }
}

impl From<Sent> for SentFields {
    ghost from_gives = { λ sent fields. fields ≡ sent_fields sent };

    // The fields of what was sent.
    #[tactic(auto, unfolding(crate::specs::Answers::sent_fields))]
    fn from(sent: Sent) -> SentFields {
        let bytes = sent.bytes();
        let nothing = SentFields {
            kind: 0,
            destination: 0,
            state: 0,
            application: 0,
            high: false,
            bytes,
        };
        match sent {
            Sent::Nothing => nothing,
            Sent::Token { destination } => SentFields {
                kind: 1,
                destination,
                ..nothing
            },
            Sent::StatusRequest { destination } => SentFields {
                kind: 2,
                destination,
                ..nothing
            },
            Sent::StatusResponse { destination, state } => SentFields {
                kind: 3,
                destination,
                state: state.into(),
                ..nothing
            },
            Sent::Application {
                destination,
                application,
                high,
                ..
            } => SentFields {
                kind: 4,
                destination,
                state: 0,
                application,
                high,
                bytes,
            },
        }
    }
}

impl From<SentFields> for Sent {
    ghost from_gives = { λ fields sent. sent ≡ sent_from fields };

    // What was sent, by its fields; nothing where there is no such kind.
    #[tactic(auto, unfolding(crate::specs::Answers::sent_from))]
    fn from(fields: SentFields) -> Sent {
        let destination = fields.destination;
        match fields.kind {
            1 => Sent::Token { destination },
            2 => Sent::StatusRequest { destination },
            3 => Sent::StatusResponse {
                destination,
                state: ResponseState::from_number(fields.state),
            },
            4 => Sent::Application {
                destination,
                application: fields.application,
                high: fields.high,
                bytes: fields.bytes,
            },
            _ => Sent::Nothing,
        }
    }
}

impl From<Notice> for NoticeFields {
    ghost from_gives = { λ notice fields. fields ≡ notice_fields notice };

    // The fields of a notice.
    #[tactic(auto, unfolding(crate::specs::Answers::notice_fields))]
    fn from(notice: Notice) -> NoticeFields {
        match notice {
            Notice::NoNotice => NoticeFields {
                kind: 0,
                application: 0,
                address: 0,
            },
            Notice::Reply {
                application,
                address,
            } => NoticeFields {
                kind: 1,
                application,
                address,
            },
            Notice::Timeout {
                application,
                address,
            } => NoticeFields {
                kind: 2,
                application,
                address,
            },
        }
    }
}

impl From<NoticeFields> for Notice {
    ghost from_gives = { λ fields notice. notice ≡ notice_from fields };

    // A notice by its fields; none where there is no such kind.
    #[tactic(auto, unfolding(crate::specs::Answers::notice_from))]
    fn from(fields: NoticeFields) -> Notice {
        let application = fields.application;
        let address = fields.address;
        match fields.kind {
            1 => Notice::Reply {
                application,
                address,
            },
            2 => Notice::Timeout {
                application,
                address,
            },
            _ => Notice::NoNotice,
        }
    }
}

impl Answer {
    /// The answer of a refused entry: number, state, next application and next station, and nothing else.
    #[tactic(auto, unfolding(crate::specs::Answers::refused_answer))]
    pub fn refused(refusal: u8, state: u8, next_application: u8, next_station: u8) -> Answer
        ensures { result ≡ refused_answer refusal state next_application next_station }
    {
        Answer {
            refusal,
            outcome: Outcome::None,
            state,
            sent: Sent::Nothing,
            consumed: 0,
            notice: Notice::NoNotice,
            next_application,
            next_station,
        }
    }

    /// The answer as 64 bits. Of a number that does not fit its field the lowest bits are taken.
    #[tactic(auto, unfolding(crate::specs::Answers::answer_word))]
    pub fn pack(self) -> u64
        ensures { result ≡ answer_word self }
    {
        let sent = SentFields::from(self.sent);
        let notice = NoticeFields::from(self.notice);
        let word = put(0, 5, self.refusal);
        let word = put(word, 3, u8::from(self.outcome));
        let word = put(word, 4, self.state);
        let word = put(word, 3, sent.kind);
        let word = put(word, 7, sent.destination);
        let word = put(word, 2, sent.state);
        let word = put(word, 3, sent.application);
        let word = put(word, 1, sent.high);
        let word = put(word, 8, sent.bytes);
        let word = put(word, 4, self.consumed);
        let word = put(word, 2, notice.kind);
        let word = put(word, 3, notice.application);
        let word = put(word, 7, notice.address);
        let word = put(word, 3, self.next_application);
        let word = put(word, 7, self.next_station);
        put(word, 2, 0u8)
    }

    /// The answer whose word this is, if there is one.
    #[tactic(auto, unfolding(crate::specs::Answers::unpack_of))]
    pub fn unpack(word: u64) -> Option<Answer>
        ensures { result ≡ unpack_of word }
    {
        let answer = Answer::read(word);
        if answer.pack() == word && answer.is_meant() {
            Some(answer)
        } else {
            None
        }
    }

    // What the fields of a word say; with a refusal only the fields that a refused entry has.
    #[tactic(auto, unfolding(crate::specs::Answers::answer_of))]
    fn read(word: u64) -> Answer
        ensures { result ≡ answer_of word }
    {
        let refusal = field(word, 59, 5);
        if refusal == 0 {
            return Answer::read_full(word);
        }
        Answer::refused(
            refusal,
            field(word, 52, 4),
            field(word, 9, 3),
            field(word, 2, 7),
        )
    }

    // What the fields of a word say, its refusal left out.
    #[tactic(auto, unfolding(crate::specs::Answers::full_of))]
    fn read_full(word: u64) -> Answer
        ensures { result ≡ full_of word }
    {
        let sent = SentFields {
            kind: field(word, 49, 3),
            destination: field(word, 42, 7),
            state: field(word, 40, 2),
            application: field(word, 37, 3),
            high: field(word, 36, 1),
            bytes: field(word, 28, 8),
        };
        let notice = NoticeFields {
            kind: field(word, 22, 2),
            application: field(word, 19, 3),
            address: field(word, 12, 7),
        };
        Answer {
            refusal: 0,
            outcome: Outcome::from_number(field(word, 56, 3)),
            state: field(word, 52, 4),
            sent: sent.into(),
            consumed: field(word, 24, 4),
            notice: notice.into(),
            next_application: field(word, 9, 3),
            next_station: field(word, 2, 7),
        }
    }

    // Whether the answer's numbers are such as document 01 has.
    #[tactic(auto, unfolding(crate::specs::Answers::meant))]
    fn is_meant(self) -> bool
        ensures { result ≡ meant self }
    {
        self.state <= LAST_STATE
            && self.consumed <= 8
            && self.sent.is_meant()
            && is_refusal_known(self.refusal)
    }
}

// Whether an answer can have this refusal.
#[tactic(auto, unfolding(crate::specs::Answers::refusal_known))]
fn is_refusal_known(refusal: u8) -> bool
    ensures { result ≡ refusal_known refusal }
{
    matches!(refusal, 0 | 12..=16)
}
