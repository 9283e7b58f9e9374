// Laws that follow from the definitions alone.
ghost use Rattle.sysex_groups.specs.Laws.{CutPayloadIsJoined, FedPartsAreTheDefinition, OpenedByPlaces};
ghost use Rattle.sysex_groups.specs.Laws.{PartsOfOneGroup, PayloadOfAnySizeIsJoined};

/// Proves what one more part does to the parts of a group, to their bytes and to the open exclusive of the
/// group, with any limit or none: a part of another group changes nothing, and a part of the group itself
/// comes last.
pub fn parts_of_one_group()
    ensures { PartsOfOneGroup }
{}

/// Proves that the places of a group's parts determine its open exclusive. An exclusive is open exactly if
/// the group sent a Start, only Continues since then, and no more bytes than the limit (M2-104-UM, system
/// exclusive 7-bit messages).
pub fn opened_by_places()
    ensures { OpenedByPlaces }
{}

/// Proves that feeding any parts of all groups to a new table agrees with the definition that looks back
/// over them: on the open exclusive of each group, and on the result of one more part. Both depend only on
/// the parts of that group, and all other groups are unchanged.
pub fn fed_parts_are_the_definition()
    ensures { FedPartsAreTheDefinition }
{}

/// Proves that the packets into which a payload is cut are joined to that payload again, with any number of
/// bytes in each packet but the last, if the limit is at least the payload's length. The last packet ends
/// the payload and no earlier one ends anything, whatever came before them and whatever other groups send
/// between them.
pub fn payload_of_any_size_is_joined()
    ensures { PayloadOfAnySizeIsJoined }
{}

/// Proves the same for a payload that is cut every six bytes.
pub fn cut_payload_is_joined()
    ensures { CutPayloadIsJoined }
{
    payload_of_any_size_is_joined();
}
