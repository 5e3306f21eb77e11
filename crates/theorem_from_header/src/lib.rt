// No code: from a trace's header to the theorems. What theorem_sound and theorem_silence say of stations that calls make holds of
// every station inside a trace, and is read off the bytes that the hosts' call leaves. The statements are in specs/: Built, FromHeader,
// AnswersRead, SilentTrace and HostCall. It leans on amsulfezd, trace and the theorems on stations and traces.
#![tactic(auto)]
