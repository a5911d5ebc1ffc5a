// The site that a request is for, by the value of its Host (RFC 9110, section 7.2).
ghost use Rattle.std.specs.Prelude.{◌≡◌, ◌<◌, ◌++◌, ℕ, List, codes, false, length, option_and_then, option_copied, option_map};
ghost use Rattle.std.specs.Char.{is_ascii_digit};
ghost use Rattle.std.specs.List.{list_all};
ghost use Rattle.std.specs.Option.{option_map_or};
ghost use Rattle.std.specs.Str.{str_eq_ignore_ascii_case};
ghost use Rattle.ecr_model.specs.http.Hosts.{api_host, first_with, is_port, named_site, registry_host, site_for, without_port};

use ecr_model::SiteId;

/// The site that a request is for, of those that are served: the one that the value of Host names, or else the first.
///
/// It takes no memory: a host is compared piece by piece with what a site's would be.
#[tactic(auto, unfolding(ecr_model::specs::http::Hosts::site_for))]
pub(crate) fn site_for<'a>(sites: &'a [SiteId], host: Option<&[u8]>) -> &'a SiteId
    requires { 0 < length sites.now }
    ensures { result.now ≡ site_for sites.entry.now (option_map (λ value. value.now) host.entry) }
{
    match named_by(sites, host) {
        Some(site) => site,
        None => &sites[0],
    }
}

/// The site that the value of Host names, where there is one.
fn named_by<'a>(sites: &'a [SiteId], host: Option<&[u8]>) -> Option<&'a SiteId>
    ensures { option_copied result ≡ option_and_then (λ value. named_site sites.entry.now (without_port value))
        (option_map (λ value. value.now) host.entry) }
{
    named_site(sites, without_port(host?))
}

/// The site that the host names: the one whose registry it is, or else the first of the region whose API it is.
#[tactic(auto, unfolding(ecr_model::specs::http::Hosts::named_site))]
fn named_site<'a>(sites: &'a [SiteId], host: &[u8]) -> Option<&'a SiteId>
    ensures { option_copied result ≡ named_site sites.entry.now host.now }
{
    match first_registry(sites, host) {
        Some(site) => Some(site),
        None => first_api(sites, host),
    }
}

/// The first site whose registry is that host.
fn first_registry<'a>(sites: &'a [SiteId], host: &[u8]) -> Option<&'a SiteId>
    ensures { option_copied result ≡ first_with registry_host host.now sites.entry.now }
{
    sites.iter().find(|site| is_registry_host(host, *site))
}

/// The first site of the region whose API is that host.
fn first_api<'a>(sites: &'a [SiteId], host: &[u8]) -> Option<&'a SiteId>
    ensures { option_copied result ≡ first_with api_host host.now sites.entry.now }
{
    sites.iter().find(|site| is_api_host(host, *site))
}

/// Whether the host is `ACCOUNT.dkr.ecr.REGION.amazonaws.com` of the site.
fn is_registry_host(host: &[u8], site: &SiteId) -> bool
    ensures { result ≡ str_eq_ignore_ascii_case host.now (registry_host site.now) }
{
    let Some(rest) = after(host, site.account.as_bytes()) else {
        return false;
    };
    let Some(rest) = after(rest, b".dkr.ecr.") else {
        return false;
    };
    is_region_and_end(rest, site)
}

/// Whether the host is `api.ecr.REGION.amazonaws.com` of the site.
fn is_api_host(host: &[u8], site: &SiteId) -> bool
    ensures { result ≡ str_eq_ignore_ascii_case host.now (api_host site.now) }
{
    let Some(rest) = after(host, b"api.ecr.") else {
        return false;
    };
    is_region_and_end(rest, site)
}

/// Whether the text is `REGION.amazonaws.com` of the site.
fn is_region_and_end(text: &[u8], site: &SiteId) -> bool
    ensures { result ≡ str_eq_ignore_ascii_case text.now (site.now.region ++ codes ".amazonaws.com") }
{
    let Some(rest) = after(text, site.region.as_bytes()) else {
        return false;
    };
    is_same(rest, b".amazonaws.com")
}

/// What stands after the front, or `None` where the text doesn't begin with it.
fn after<'a>(text: &'a [u8], front: &[u8]) -> Option<&'a [u8]>
    ensures { (end : List ℕ) → str_eq_ignore_ascii_case text.entry.now (front.now ++ end) ≡ option_map_or
        (λ rest. str_eq_ignore_ascii_case rest.now end) result false }
{
    if text.len() < front.len() {
        return None;
    }
    let (begin, rest) = text.split_at(front.len());
    if is_same(begin, front) {
        Some(rest)
    } else {
        None
    }
}

/// Whether the texts are the same but for the case of ASCII letters.
fn is_same(one: &[u8], other: &[u8]) -> bool
    ensures { result ≡ str_eq_ignore_ascii_case one.now other.now }
{
    one.eq_ignore_ascii_case(other)
}

/// The host without its last `:`, where a port stands behind that.
fn without_port(host: &[u8]) -> &[u8]
    ensures { result.now ≡ without_port host.now }
{
    let Some(colon) = host.iter().rposition(|byte| *byte == b':') else {
        return host;
    };
    if is_port(&host[colon + 1..]) {
        &host[..colon]
    } else {
        host
    }
}

/// Whether the text is a port of at least one digit.
fn is_port(text: &[u8]) -> bool
    ensures { result ≡ is_port text.now }
{
    !text.is_empty() && are_digits(text)
}

/// Whether each byte is a digit.
fn are_digits(text: &[u8]) -> bool
    ensures { result ≡ list_all is_ascii_digit text.now }
{
    text.iter().all(|byte| byte.is_ascii_digit())
}
