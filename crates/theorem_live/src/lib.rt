// No code: the theorems on the live door. They are in specs/, over the definitions of station_bytes and live, and lean on theorem_sound
// and theorem_every_trace.
#![tactic(auto)]
