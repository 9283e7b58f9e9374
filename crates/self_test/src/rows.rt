// Worked rows of the generator, computed from its definition alone. A slow model in another language computed
// the values.
ghost use Rattle.std.specs.Prelude.{◌≡◌, ◌+◌, ◌*◌, [], ◌∷◌, map, None};
ghost use Rattle.voice_messages.specs.declared.voice2.Voice2.TheVariants as voice2;
ghost use Rattle.ump_grammar.specs.declared.packet.Packet.TheVariants as packet;
ghost use Rattle.self_test.specs.Generator.{draw_at, generated};

/// The first draws of seed 0 are 3C6E, 4750, D1CC, AAF9 and 6252. They give a poly pressure of note 4C (own
/// rule).
pub fn the_first_packet_of_seed_0()
    ensures draws { map (draw_at 0) (0 ∷ 1 ∷ 2 ∷ 3 ∷ 4 ∷ [])
        ≡ 0x3C6E ∷ 0x4750 ∷ 0xD1CC ∷ 0xAAF9 ∷ 0x6252 ∷ [] }
    ensures packet { generated 0 0 ≡ packet.Voice2 0 (voice2.PolyPressure 0 0x4C 0xAAF96252) }
{}

/// The first packets of seed 1 are two notes on and a bend. The first packets of the greatest seed are a
/// bend, a program change without a bank and a poly pressure (own rule).
pub fn the_first_packets_of_two_seeds()
    ensures least { map (generated 1) (0 ∷ 1 ∷ 2 ∷ [])
        ≡ packet.Voice2 0 (voice2.NoteOn 8 22 3312 0 0)
        ∷ packet.Voice2 0 (voice2.NoteOn 6 98 41893 0 0)
        ∷ packet.Voice2 0 (voice2.Bend 0 (54849 * 65536 + 15405)) ∷ [] }
    ensures greatest { map (generated 4294967295) (0 ∷ 1 ∷ 2 ∷ [])
        ≡ packet.Voice2 0 (voice2.Bend 7 (41343 * 65536 + 47029))
        ∷ packet.Voice2 0 (voice2.Program 5 80 None)
        ∷ packet.Voice2 0 (voice2.PolyPressure 1 16 (61164 * 65536 + 51014)) ∷ [] }
{}
