ghost use Rattle.std.specs.Prelude.{◌≡◌};
ghost use Rattle.refusals.specs.Refusals.{number_of};

use std::error::Error;
use std::fmt;

/// Why something is refused. 16, the command passive, belongs to earlier versions, and nothing gives it.
#[derive(Clone, Copy, Debug, PartialEq, Eq)]
pub enum Refusal {
    Address = 1,
    SlotBits = 2,
    HighestStationAddress = 3,
    TokenRotation = 4,
    GapWait = 5,
    RetryLimit = 6,
    MinTsdr = 7,
    Watchdog = 8,
    WatchdogFactors = 9,
    BaudCode = 10,
    Applications = 11,
    RecordLength = 12,
    TelegramCount = 13,
    ReservedBit = 14,
    NoBytesToSend = 15,
    TraceLength = 17,
    NoRoom = 18,
    FrameCut = 19,
    StartByte = 20,
    FrameHeader = 21,
    CheckByte = 22,
    EndByte = 23,
    AddressExtension = 24,
    NoRoomForGapPoll = 25,
    AddressAskedFor = 26,
    SameAddress = 27,
    TickTime = 28,
    Stations = 29,
    BaudCodesDiffer = 30,
    CaptureLine = 31,
    TimeGoesBack = 32,
    LinesOfOneTime = 33,
    FunctionCode = 34,
    Ticks = 35,
    StationBytes = 36,
}

impl Refusal {
    /// The refusal's number.
    pub fn number(self) -> u8
        ensures { result ≡ number_of self }
    {
        self as u8
    }
}

impl fmt::Display for Refusal {
    ghost use Rattle.std.specs.Prelude.{Some};
    ghost use Rattle.refusals.specs.Texts.{text_of};

    ghost output = { λ e. Some (text_of e) };

    fn fmt<W: fmt::Write>(&self, f: &mut fmt::Formatter<W>) -> fmt::Result {
        f.write_str(match self {
            Refusal::Address => "the address is above 125",
            Refusal::SlotBits => "the slot bits are below the baud rate's least",
            Refusal::HighestStationAddress => {
                "the highest station address is not above the address, or above 126"
            }
            Refusal::TokenRotation => "the token rotation is outside 256 to 16777960 bits",
            Refusal::GapWait => "the gap wait is outside 1 to 100 rotations",
            Refusal::RetryLimit => "the retry limit is outside 1 to 15",
            Refusal::MinTsdr => "the min Tsdr is below 11 bits",
            Refusal::Watchdog => {
                "the watchdog time is outside 10 to 650000 ms, or one of its factors alone is zero"
            }
            Refusal::WatchdogFactors => "no two factors make the watchdog time",
            Refusal::BaudCode => "the baud code is above 10",
            Refusal::Applications => "the number of applications is outside 1 to 8",
            Refusal::RecordLength =>
                "the poll record has another length than its applications and telegrams need",
            Refusal::TelegramCount => "the poll record says that it has more than 8 telegrams",
            Refusal::ReservedBit => "a bit that should be zero is one",
            Refusal::NoBytesToSend => "an application sends 0 bytes",
            Refusal::TraceLength =>
                "the bytes end inside a header or an entry, or are more than 2^32",
            Refusal::NoRoom => "there is no room for what is to be written",
            Refusal::FrameCut => "the frame is empty or cut short",
            Refusal::StartByte => "no frame starts with this byte",
            Refusal::FrameHeader => {
                "the header of an SD2 frame repeats other bytes, or its length is outside 4 to 249"
            }
            Refusal::CheckByte => "the frame's check byte is wrong",
            Refusal::EndByte => "the frame's end byte is wrong",
            Refusal::AddressExtension => "an address of the frame has its extension bit set",
            Refusal::NoRoomForGapPoll =>
                "the token rotation has no room for a gap poll: it is below the slot bits + 100",
            Refusal::AddressAskedFor => "the address that is asked for is above 125",
            Refusal::SameAddress => "two stations have the same address",
            Refusal::TickTime => "the tick is 0 or above 1000000 microseconds",
            Refusal::Stations => {
                "there are fewer than 2 or more than 8 stations, or none at the place that is asked for"
            }
            Refusal::BaudCodesDiffer => "the stations' baud codes differ",
            Refusal::CaptureLine => {
                "the line is no time, one space, pairs of hex digits and a line feed, or has bytes after its frame"
            }
            Refusal::TimeGoesBack => "the time is below the one before",
            Refusal::LinesOfOneTime => "more than 8 lines have one time",
            Refusal::FunctionCode => {
                "the top bit of the function code is set, or a request that is no status request is to be written"
            }
            Refusal::Ticks => "there are more than 1000000 ticks",
            Refusal::StationBytes => "the bytes are no station",
        })
    }
}

impl Error for Refusal {}
