// One table of codes, with the elements and the names that the standard has for them.
use std::test::Fail;
use wbxml_tables::{Element, element_of, name_of};

struct Row {
    page: u8,
    code: u8,
    element: Option<Element>,
    name: &'static str,
}

const ROWS: [Row; 5] = [
    Row {
        page: 0,
        code: 0x13,
        element: Some(Element::EGet),
        name: "Get",
    },
    Row {
        page: 1,
        code: 0x13,
        element: Some(Element::EType),
        name: "Type",
    },
    Row {
        page: 1,
        code: 0x06,
        element: Some(Element::EEMI),
        name: "EMI",
    },
    Row {
        page: 0,
        code: 0x30,
        element: None,
        name: "",
    },
    Row {
        page: 2,
        code: 0x05,
        element: None,
        name: "",
    },
];

fn name_of_found(element: Option<Element>) -> &'static str {
    match element {
        Some(element) => name_of(element),
        None => "",
    }
}

#[test]
fn has_the_elements_and_their_names(rt: HostRuntime) -> Result<(), Fail> {
    for row in &ROWS {
        let element = element_of(row.page, row.code);
        assert_eq!(rt; element, row.element);
        assert_eq!(rt; name_of_found(element), row.name);
    }
    Ok(())
}
