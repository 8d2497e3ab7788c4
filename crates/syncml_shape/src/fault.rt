// Tags that are refused for their name.
ghost use Rattle.std.specs.Prelude.{◌≡◌};
ghost use Rattle.syncml_shape.specs.Faults.{is_left_out as is_left_out_of_profile, is_in, is_stray as is_stray_tag};
ghost use Rattle.syncml_shape.specs.Faults.{is_nested as is_nested_tag, tag_fault as fault_of_tag};

use wbxml_tables::Element;
use wbxml_tokens::Reason;

/// Whether this profile leaves the element out, wherever it stands.
#[inline(always)]
pub fn is_left_out(element: Element) -> bool
    ensures { result ≡ is_left_out_of_profile element }
{
    matches!(
        element,
        Element::EArchive
            | Element::EField
            | Element::EFilter
            | Element::EFilterType
            | Element::ELang
            | Element::EMap
            | Element::EMapItem
            | Element::EMove
            | Element::ENoResults
            | Element::ENumberOfChanges
            | Element::EPut
            | Element::ERecord
            | Element::ESearch
            | Element::ESftDel
            | Element::ESourceParent
            | Element::ESync
            | Element::ETargetParent
            | Element::EAnchor
            | Element::EEMI
            | Element::EFieldLevel
            | Element::EFreeID
            | Element::EFreeMem
            | Element::ELast
            | Element::EMem
            | Element::ENext
            | Element::ESharedMem
    )
}

fn is_under(element: Element, parent: Option<Element>) -> bool
    ensures { result ≡ is_in element parent }
{
    match parent {
        None => false,
        Some(parent) => element == parent,
    }
}

// A Cred outside SyncHdr.
fn is_stray(parent: Option<Element>, element: Element) -> bool
    ensures { result ≡ is_stray_tag parent element }
{
    Element::ECred == element && !is_under(Element::ESyncHdr, parent)
}

// A container in a container that can't hold it.
fn is_nested(parent: Option<Element>, element: Element) -> bool
    ensures { result ≡ is_nested_tag parent element }
{
    Element::EAtomic == element && is_under(Element::EAtomic, parent)
        || Element::ESequence == element
            && (is_under(Element::EAtomic, parent) || is_under(Element::ESequence, parent))
}

/// Why a tag is refused for its own name and its parent's: Leftout for an element that this profile leaves out, and for
/// a Cred that isn't in SyncHdr; Nested for an Atomic in an Atomic and a Sequence in an Atomic or a Sequence. The
/// parent is the innermost open element, None outside every element. It takes no memory.
#[inline(always)]
pub fn tag_fault(parent: Option<Element>, element: Element) -> Option<Reason>
    ensures { result ≡ fault_of_tag parent element }
{
    if is_left_out(element) || is_stray(parent, element) {
        Some(Reason::Leftout)
    } else if is_nested(parent, element) {
        Some(Reason::Nested)
    } else {
        None
    }
}
