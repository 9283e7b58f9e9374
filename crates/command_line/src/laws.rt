// Laws of the command line: arguments of each command, and requests for help.
ghost use Rattle.std.specs.Prelude.{◌≡◌, Some, None, true, false, codes, [], ◌∷◌};
ghost use Rattle.command_line.specs.Asked.{down, up, back, show, show_bytes, endpoint, usb_split, usb_pack, sysex8, rehearse, clip, self_test};
ghost use Rattle.command_line.specs.Rules.{command_of};
ghost use Rattle.command_line.specs.declared.translate.LaneStyle.TheVariants.{Plain, Compact};
ghost use Rattle.packet_words.specs.declared.words.Order.TheVariants.{Big, Little};

/// `translate down` is accepted with its folder, without further options and with all of them.
pub fn down_is_taken()
    ensures least { command_of (codes "translate" ∷ codes "down" ∷ codes "--folder" ∷ codes "F" ∷ [])
        ≡ Some (down (codes "F") (record { style = Plain; paired = false; order = Big; room = 1048576 })) }
    ensures most { command_of (codes "translate" ∷ codes "down" ∷ codes "--room" ∷ codes "6"
        ∷ codes "--little" ∷ codes "--compact" ∷ codes "--paired" ∷ codes "--folder" ∷ codes "F" ∷ [])
        ≡ Some (down (codes "F") (record { style = Compact; paired = true; order = Little; room = 6 })) }
{}

/// `translate up` is accepted without options and with all of them.
pub fn up_is_taken()
    ensures least { command_of (codes "translate" ∷ codes "up" ∷ [])
        ≡ Some (up (record { group = 0; paired = false; order = Big; room = 1048576 })) }
    ensures most { command_of (codes "translate" ∷ codes "up" ∷ codes "--group" ∷ codes "15"
        ∷ codes "--little" ∷ codes "--paired" ∷ codes "--room" ∷ codes "6" ∷ [])
        ≡ Some (up (record { group = 15; paired = true; order = Little; room = 6 })) }
{}

/// `translate back` is accepted without options and with all of them.
pub fn back_is_taken()
    ensures least { command_of (codes "translate" ∷ codes "back" ∷ [])
        ≡ Some (back (record { group = 0; paired = false; room = 1048576 })) }
    ensures most { command_of (codes "translate" ∷ codes "back" ∷ codes "--group" ∷ codes "15"
        ∷ codes "--paired" ∷ codes "--room" ∷ codes "6" ∷ [])
        ≡ Some (back (record { group = 15; paired = true; room = 6 })) }
{}

/// `show` and `show --bytes` are accepted without further options and with all of them.
pub fn show_is_taken()
    ensures words { command_of (codes "show" ∷ [])
        ≡ Some (show (record { state = false; order = Big; room = 1048576 })) }
    ensures most_words { command_of
        (codes "show" ∷ codes "--state" ∷ codes "--little" ∷ codes "--room" ∷ codes "6" ∷ [])
        ≡ Some (show (record { state = true; order = Little; room = 6 })) }
    ensures bytes { command_of (codes "show" ∷ codes "--bytes" ∷ [])
        ≡ Some (show_bytes (record { state = false; room = 1048576 })) }
    ensures most_bytes { command_of
        (codes "show" ∷ codes "--bytes" ∷ codes "--state" ∷ codes "--room" ∷ codes "6" ∷ [])
        ≡ Some (show_bytes (record { state = true; room = 6 })) }
{}

/// `endpoint` is accepted with its setup, without options and with all of them.
pub fn endpoint_is_taken()
    ensures least { command_of (codes "endpoint" ∷ codes "S" ∷ [])
        ≡ Some (endpoint (codes "S") (record { order = Big; room = 1048576 })) }
    ensures most { command_of
        (codes "endpoint" ∷ codes "S" ∷ codes "--little" ∷ codes "--room" ∷ codes "6" ∷ [])
        ≡ Some (endpoint (codes "S") (record { order = Little; room = 6 })) }
{}

/// `usb split` is accepted with its folder.
pub fn usb_split_is_taken()
    ensures { command_of (codes "usb" ∷ codes "split" ∷ codes "--folder" ∷ codes "F" ∷ [])
        ≡ Some (usb_split (codes "F")) }
{}

/// `usb pack` is accepted without options and with all of them.
pub fn usb_pack_is_taken()
    ensures least { command_of (codes "usb" ∷ codes "pack" ∷ [])
        ≡ Some (usb_pack (record { cable = 0; room = 1048576 })) }
    ensures most { command_of
        (codes "usb" ∷ codes "pack" ∷ codes "--cable" ∷ codes "15" ∷ codes "--room" ∷ codes "6" ∷ [])
        ≡ Some (usb_pack (record { cable = 15; room = 6 })) }
{}

/// `sysex8` is accepted with its folder, without further options and with all of them.
pub fn sysex8_is_taken()
    ensures least { command_of (codes "sysex8" ∷ codes "--folder" ∷ codes "F" ∷ [])
        ≡ Some (sysex8 (codes "F") (record { streams = 16; order = Big; room = 1048576 })) }
    ensures most { command_of
        (codes "sysex8" ∷ codes "--folder" ∷ codes "F" ∷ codes "--streams" ∷ codes "64" ∷ codes "--little"
        ∷ codes "--room" ∷ codes "13" ∷ [])
        ≡ Some (sysex8 (codes "F") (record { streams = 64; order = Little; room = 13 })) }
{}

/// `rehearse` is accepted with its setup.
pub fn rehearse_is_taken()
    ensures { command_of (codes "rehearse" ∷ codes "S" ∷ [])
        ≡ Some (rehearse (codes "S")) }
{}

/// `clip` is accepted. It has no other arguments.
pub fn clip_is_taken()
    ensures { command_of (codes "clip" ∷ []) ≡ Some clip }
{}

/// `selftest` is accepted with its seed, without options and with all of them.
pub fn self_test_is_taken()
    ensures least { command_of (codes "selftest" ∷ codes "0" ∷ [])
        ≡ Some (self_test (record { seed = 0; packets = 10000 })) }
    ensures most { command_of
        (codes "selftest" ∷ codes "4294967295" ∷ codes "--packets" ∷ codes "1000000" ∷ [])
        ≡ Some (self_test (record { seed = 4294967295; packets = 1000000 })) }
{}

/// A request for help isn't a command, and neither is an empty list of arguments.
pub fn help_is_not_taken()
    ensures help { command_of (codes "--help" ∷ []) ≡ None }
    ensures below { command_of (codes "show" ∷ codes "--help" ∷ []) ≡ None }
    ensures nothing { command_of [] ≡ None }
{}
