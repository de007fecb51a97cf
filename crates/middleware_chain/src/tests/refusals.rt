//! Hosts, paths and methods.

use super::*;

/// A refusal, by what it has beside a page's other lines.
#[derive(Clone, Copy)]
struct Due {
    status: u16,
    body: &'static str,
    location: Option<&'static str>,
    allow: Option<&'static str>,
}

const BAD_HOST: Due = Due {
    status: 400,
    body: "error=bad-host\n",
    location: None,
    allow: None,
};

const NO_ROUTE: Due = Due {
    status: 404,
    body: "error=no-route\n",
    location: None,
    allow: None,
};

fn refused_requests() -> [(Asked<'static>, Due); 7] {
    [
        (
            Asked {
                host: None,
                path: "/none",
                ..WHOAMI
            },
            BAD_HOST,
        ),
        (
            Asked {
                path: "/reset/MQ/a/b/",
                ..WHOAMI
            },
            NO_ROUTE,
        ),
        (
            Asked {
                path: "/reset/MQ/set-password",
                ..WHOAMI
            },
            Due {
                status: 301,
                body: "",
                location: Some("/reset/MQ/set-password/"),
                allow: None,
            },
        ),
        (
            Asked {
                method: Method::Post,
                path: "/whoami",
                query: Some("a=1"),
                ..WHOAMI
            },
            Due {
                status: 301,
                body: "",
                location: Some("/whoami/?a=1"),
                allow: None,
            },
        ),
        (
            Asked {
                path: "/whoami/x",
                ..WHOAMI
            },
            NO_ROUTE,
        ),
        (
            Asked {
                method: Method::Post,
                ..WHOAMI
            },
            Due {
                status: 405,
                body: "error=method\n",
                location: None,
                allow: Some("GET, HEAD"),
            },
        ),
        (
            Asked {
                path: "/logout/",
                ..WHOAMI
            },
            Due {
                status: 405,
                body: "error=method\n",
                location: None,
                allow: Some("POST"),
            },
        ),
    ]
}

#[test]
fn each_refusal_has_its_page(rt: HostRuntime) -> Result<(), Fail> {
    let alloc = rt.alloc();
    for (asked, due) in refused_requests() {
        let page = Response {
            location: optional_text(alloc, due.location)?,
            allow: optional_text(alloc, due.allow)?,
            ..page_of(alloc, due.status, due.body)?
        };
        let answer = answer_to(alloc, &asked)?;
        assert_eq!(rt; answer, Some(page), "{} {:?}", asked.path, asked.query);
    }
    Ok(())
}

#[test]
fn hosts_are_compared_without_case_port_and_last_dot(rt: HostRuntime) -> Result<(), Fail> {
    let alloc = rt.alloc();
    for (host, is_taken) in [
        ("EXAMPLE.com.:8000", true),
        ("evil.com", false),
        ("example.com:", false),
        ("exa mple.com", false),
    ] {
        let asked = Asked {
            host: Some(host),
            ..WHOAMI
        };
        let answer = answer_to(alloc, &asked)?;
        assert_eq!(rt; answer.is_none(), is_taken, "{host}");
    }
    Ok(())
}
