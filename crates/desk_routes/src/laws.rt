// What holds of every request. The function has an empty body: its clause is the law.

ghost use Rattle.std.specs.Prelude.{◌≡◌, Ok};
ghost use Rattle.http_messages.specs.Requests.{RequestValue};
ghost use Rattle.desk_routes.specs.declared.places.Asked.{Asked};
ghost use Rattle.desk_routes.specs.declared.places.Routes.{Routes};
ghost use Rattle.desk_routes.specs.Asking.{asked_of};
ghost use Rattle.desk_routes.specs.Served.{IsServed};

/// What a request asks may be asked: an edit of the settings replaces them, and worker steps are asked only where the
/// worker's routes are served.
pub fn route_laws()
    ensures served { (routes : Routes) (request : RequestValue) (asked : Asked) → asked_of routes request ≡ Ok asked → IsServed routes asked }
{}
