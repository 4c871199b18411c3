// What `compile_song_v2` leaves in the buffer passes the comparison with its master. A theorem in proofs/; no code stands here.
#![tactic(auto)]
