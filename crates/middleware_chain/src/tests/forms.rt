//! Forms: forgery, and how many fields they have.

use super::*;

/// A form that is sent by HTTPS: its referer, its cookie, its body, and how the refusal of it ends.
type Sent = (
    Option<&'static str>,
    Option<&'static str>,
    &'static str,
    Option<&'static str>,
);

const COOKIE: &str = "csrftoken=aaaaaaaaaaaaaaaaaaaaaaaaaaaaaaaa";

const TRUSTED: &str = "https://a.example.org/x";

/// The secret of nines under a mask of `b`.
const MASKED: &str = "csrftoken=bbbbbbbbbbbbbbbbbbbbbbbbbbbbbbbbaaaaaaaaaaaaaaaaaaaaaaaaaaaaaaaa";

fn sent_forms() -> [Sent; 10] {
    [
        (None, None, "", Some("no-referer")),
        (
            Some("http://example.com/"),
            None,
            "",
            Some("insecure-referer"),
        ),
        (Some(TRUSTED), None, "", Some("no-cookie")),
        (
            Some(TRUSTED),
            Some("csrftoken=aaaaaaaaaaaaaaaaaaaaaaaaaaaaaaaaaaaaaaaaaaaaaaaaaaaaaaaaaaaaaaa"),
            "",
            Some("cookie-length"),
        ),
        (
            Some(TRUSTED),
            Some("csrftoken=aaaaaaaaaaaaaaaaaaaaaaaaaaaaaaaaaaaaaaaaaaaaaaaaaaaaaaaaaaaaaaa-"),
            "",
            Some("cookie-characters"),
        ),
        (Some(TRUSTED), Some(COOKIE), "a=b", Some("token-missing")),
        (
            Some(TRUSTED),
            Some(MASKED),
            "csrfmiddlewaretoken=aaaaaaaaaaaaaaaaaaaaaaaaaaaaaaaa",
            Some("token-incorrect"),
        ),
        (
            Some(TRUSTED),
            Some(MASKED),
            "csrfmiddlewaretoken=99999999999999999999999999999999",
            None,
        ),
        (
            Some(TRUSTED),
            Some(COOKIE),
            "csrfmiddlewaretoken=aaaaaaaaaaaaaaaaaaaaaaaaaaaaaaaa&csrfmiddlewaretoken=b",
            Some("token-length"),
        ),
        (
            Some("https://example.com/login/"),
            Some(COOKIE),
            "csrfmiddlewaretoken=b&csrfmiddlewaretoken=aaaaaaaaaaaaaaaaaaaaaaaaaaaaaaaa",
            None,
        ),
    ]
}

#[test]
fn a_form_goes_on_where_it_is_not_forged(rt: HostRuntime) -> Result<(), Fail> {
    let alloc = rt.alloc();
    for (referer, cookie, body, refusal) in sent_forms() {
        let asked = Asked {
            method: Method::Post,
            path: "/login/",
            proto: Some("https"),
            referer,
            cookie,
            form: Some(body),
            ..WHOAMI
        };
        let due = match refusal {
            Some(reason) => Some(format!(in alloc; "error=csrf-{reason}\n")?),
            None => None,
        };
        let answer = answer_to(alloc, &asked)?;
        let page = answer.as_ref().map(|page| page.body.as_str());
        assert_eq!(rt; page, due.as_ref().map(|text| text.as_str()), "{body}");
    }
    Ok(())
}

fn fields_of(alloc: Global, count: usize) -> Result<String, AllocError> {
    let mut text = String::new(alloc);
    for _ in 0..count {
        text.push_str("a=&")?;
    }
    Ok(text)
}

#[test]
fn a_thousand_fields_are_taken_and_no_more(rt: HostRuntime) -> Result<(), Fail> {
    let alloc = rt.alloc();
    for (count, status) in [(1000, None), (1001, Some(400))] {
        let fields = fields_of(alloc, count)?;
        let query = Asked {
            query: Some(fields.as_str()),
            ..WHOAMI
        };
        let form = Asked {
            form: Some(fields.as_str()),
            ..WHOAMI
        };
        for asked in [query, form] {
            let answer = answer_to(alloc, &asked)?;
            assert_eq!(rt; answer.map(|page| page.status), status, "{count} fields");
        }
    }
    Ok(())
}
